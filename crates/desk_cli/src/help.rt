//! What the program says of itself.

use duty_calendar::Memory;
use file_places::Prose;

/// What each command is for.
static HELP: [&[u8]; 29] = [
    b"pbs-desk FOLDER COMMAND: what pbs does not say, and pages. It writes no file that pbs reads, but what\n",
    b"collect and import make, and in the folder of the next month what history makes.\n",
    b"\n",
    b"  explain LINE   says a line that pbs printed as a sentence, with the text that it points to and a mark\n",
    b"                 below it; without LINE it reads the lines from standard input: pbs FOLDER check |\n",
    b"                 pbs-desk FOLDER explain\n",
    b"  lint           says all faults of the eight files, not the first alone, and what is legal but looks\n",
    b"                 wrong; it ends with 0 where there is nothing to say, 1 with warnings, 2 with faults\n",
    b"  packet         writes packet.html: the trips to bid for, and a sheet that writes bids; it wants no bids.txt\n",
    b"  collect DIR [--standing OLD] [--force]   makes bids.txt of the files NAME.txt in DIR; of who sent none\n",
    b"                 the bids in the folder OLD stand; it writes over a bids.txt only with --force\n",
    b"  page [--diff OTHER]   writes month.html: the roster, bids with reasons, trips, charts, as pbs-page does; with\n",
    b"                 --diff what is otherwise than in OTHER too\n",
    b"  page MEMBER    writes pilot-MEMBER.html: the line and the bids of one pilot, and what could be traded\n",
    b"  report         writes report.html and report.csv: what a planner asks of an award\n",
    b"  diff OTHER     says pilot by pilot what is otherwise than in the folder OTHER or the roster of that file;\n",
    b"                 it ends with 0 where nothing is, and with 1 where something is\n",
    b"  calendars [--cancelled OLD]   writes calendars/NAME.ics for each pilot, for phones; what fell away since\n",
    b"                 the calendars or the award in the folder OLD is cancelled there\n",
    b"  history NEXT [--force]   makes the month with its roster the past of the next one: writes history.csv into\n",
    b"                 the folder NEXT, over one that is there only with --force, and what is not there of rules.toml,\n",
    b"                 crew.csv and fixed.csv; it ends with 1 where someone is new or gone, or fixed.csv lacks something\n",
    b"  import SHEET [--force]   makes one of the six CSV files of a sheet that a spreadsheet wrote, says each change,\n",
    b"                 and writes it where the readers of pbs take it; over one that is there only with --force\n",
    b"  help           says this\n",
    b"\n",
    b"Pages and calendars show the names of the staff in names.csv, where there is one.\n",
    b"Pages open in any browser, on a phone too, and ask for no network.\n",
    b"What each line of pbs says stands in docs/CODES.md too, what to do next in docs/GUIDE.md.\n",
];

/// Appends what each command is for.
pub fn put_help(prose: &mut Prose) -> Result<(), Memory> {
    for line in HELP {
        prose.say(line)?;
    }
    Ok(())
}

/// Appends how the program is called.
pub fn put_usage(prose: &mut Prose) -> Result<(), Memory> {
    prose.say(
        b"usage: pbs-desk FOLDER explain [LINE] | lint | packet | collect DIR [--standing OLD] [--force] | page [MEMBER | --diff OTHER] | report | diff OTHER | calendars [--cancelled OLD] | history NEXT [--force] | import SHEET [--force] | help\n",
    )
}
