// The words behind a program's name.
ghost use Rattle.programs.specs.Words.{AsksFor};
ghost use Rattle.std.specs.Option.{option_map};

// What is asked of a program.
#[derive(Clone, Copy, Debug, PartialEq, Eq)]
pub enum Request {
    // no word: what it is there for
    Work,
    // --help or -h: how it is used
    Help,
    // any other word: nothing that there is
    Unknown,
}

impl Request {
    // What the first word asks for, if there is one.
    pub fn of(word: Option<&str>) -> Request
        ensures { AsksFor (option_map (λ w. w.now) word.entry) result }
    {
        match word {
            None => Request::Work,
            Some("--help" | "-h") => Request::Help,
            Some(_) => Request::Unknown,
        }
    }
}
