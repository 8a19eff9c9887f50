//! Whether words are what was read from them. This refuses what `clap` takes besides: a word `--`,
//! a lone dash, an empty name.
ghost use Rattle.std.specs.Prelude.{◌≡◌};
ghost use Rattle.command_words.specs.Words.{is_argument};
ghost use Rattle.command_words.specs.Found.{words_of, option_word};
ghost use Rattle.command_words.specs.Reading.{joins, same_words, begins_apart, begins, has_option, stands};

/// Whether the word is `--nodes=` and this number.
fn joins(word: &str, nodes: &str) -> bool
    ensures value { result ≡ joins word.now nodes.now }
{
    match word.as_bytes().strip_prefix(b"--nodes=") {
        Some(number) => number == nodes.as_bytes(),
        None => false,
    }
}

/// Whether the words are these, one by one.
fn are_same(words: &[&str], arguments: &[&str]) -> bool
    ensures value { result ≡ same_words (words_of words.now) (words_of arguments.now) }
{
    words == arguments
}

/// Whether the words are a number, and then these arguments.
fn begins_apart(words: &[&str], nodes: &str, arguments: &[&str]) -> bool
    ensures value { result ≡ begins_apart (words_of words.now) nodes.now (words_of arguments.now) }
{
    let Some((value, after)) = words.split_first() else {
        return false;
    };
    *value == nodes && are_same(after, arguments)
}

/// Whether the words are an option, in one word or two, and then these arguments.
fn begins(words: &[&str], nodes: &str, arguments: &[&str]) -> bool
    ensures value { result ≡ begins (words_of words.now) nodes.now (words_of arguments.now) }
{
    let Some((option, after)) = words.split_first() else {
        return false;
    };
    if joins(option, nodes) {
        return are_same(after, arguments);
    }
    *option == "--nodes" && begins_apart(after, nodes, arguments)
}

/// Whether the words are the arguments in their order, with this option among them.
fn has_option(words: &[&str], nodes: &str, arguments: &[&str]) -> bool
    ensures value { result ≡ has_option (words_of words.now) nodes.now (words_of arguments.now) }
{
    for i in 0..arguments.len() {
        if begins(words.split_at(i).1, nodes, arguments.split_at(i).1) {
            return true;
        }
        if i >= words.len() {
            return false;
        }
        if words[i] != arguments[i] {
            return false;
        }
    }
    begins(words.split_at(arguments.len()).1, nodes, &[])
}

/// Whether the words are the arguments in their order, with the option among them where there is
/// one.
pub(crate) fn stands(words: &[&str], arguments: &[&str], option: Option<&str>) -> bool
    ensures value { result ≡ stands (words_of words.now) (words_of arguments.now)
        (option_word option.entry) }
{
    match option {
        Some(nodes) => has_option(words, nodes, arguments),
        None => are_same(words, arguments),
    }
}

/// Whether a word may stand for a name: it is not empty, and no dash begins it.
pub(crate) fn is_argument(word: &str) -> bool
    ensures value { result ≡ is_argument word.now }
{
    match word.as_bytes().first() {
        Some(b) => *b != b'-',
        None => false,
    }
}
