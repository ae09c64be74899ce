// Which words are a command.
ghost use Rattle.std.specs.Prelude.{◌≡◌, map, string_bytes};
ghost use Rattle.mesh_cli.specs.Words.{check_of, command_of, translate_of};

use crate::pod_name::PodName;

/// What the program is asked for.
#[derive(Debug, Drop)]
pub enum Command<'a> {
    /// The listener of the Pod of that name.
    Translate(PodName<'a>),
    /// The counts of the manifests.
    Check,
}

/// The command that the words are; None for all other words.
pub fn command_in(words: &[String]) -> Option<Command<'_>>
    ensures { result ≡ command_of (map string_bytes words.now) }
{
    let Some((word, rest)) = words.split_first() else {
        return None;
    };
    let Some((path, more)) = rest.split_first() else {
        return check(word.as_str());
    };
    if !more.is_empty() {
        return None;
    }
    translate(word.as_str(), path.as_str())
}

fn check(word: &str) -> Option<Command<'static>>
    ensures { result ≡ check_of word.now }
{
    if word == "check" {
        Some(Command::Check)
    } else {
        None
    }
}

fn translate<'a>(word: &str, path: &'a str) -> Option<Command<'a>>
    ensures { result ≡ translate_of word.now path.now }
{
    if word != "translate" {
        return None;
    }
    match PodName::parse(path) {
        Some(name) => Some(Command::Translate(name)),
        None => None,
    }
}
