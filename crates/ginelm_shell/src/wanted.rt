// What the words of the command line want.
use ginelm::Name;

pub(crate) const VERSION: &str = "ginelm_shell 0.1.0";

pub(crate) const HELP: &str = "\
Usage: ginelm_shell NAME [--file FILE] [--prompt]

One replica of the map behind standard input and output: a call a line. NAME is the replica's
name, a number from 1 on that no other replica has or ever had. The call `help` lists the calls.

  --file FILE  keeps the replica in this file, which is made where there is none: it comes back
               from there, and each write is there before it is answered
  --prompt     writes `NAME> ` before each line is read
  --help       prints this
  --version    prints the version
";

/// What is to be done.
#[derive(Clone, Copy)]
pub(crate) enum Wanted<'a> {
    /// A replica of this name that is kept nowhere, with a prompt or without.
    Run(Name, bool),
    /// The replica in the file of this path, of this name, with a prompt or without.
    RunIn(&'a str, Name, bool),
    /// How to call the program.
    Help,
    /// Its version.
    Version,
    /// The words are none of these.
    Fault,
}

/// What these words want, those of the command line after the program's own.
pub(crate) fn read_words(words: &[String]) -> Wanted<'_> {
    let (mut name, mut path, mut prompts) = (None, None, false);
    let mut is_path_next = false;
    for word in words {
        match word.as_bytes() {
            _ if is_path_next => {
                path = Some(word.as_str());
                is_path_next = false;
            }
            b"--help" => return Wanted::Help,
            b"--version" => return Wanted::Version,
            b"--prompt" => prompts = true,
            b"--file" if path.is_none() => is_path_next = true,
            other if name.is_none() => match crate::word::name(other) {
                Some(it) => name = Some(it),
                None => return Wanted::Fault,
            },
            _ => return Wanted::Fault,
        }
    }
    if is_path_next {
        return Wanted::Fault;
    }
    run_of(name, path, prompts)
}

fn run_of(name: Option<Name>, path: Option<&str>, prompts: bool) -> Wanted<'_> {
    match (name, path) {
        (Some(name), Some(path)) => Wanted::RunIn(path, name, prompts),
        (Some(name), None) => Wanted::Run(name, prompts),
        (None, _) => Wanted::Fault,
    }
}
