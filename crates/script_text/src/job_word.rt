//! The words with which the lines of a job begin.

ghost use Rattle.std.specs.Prelude.{◌≡◌};
ghost use Rattle.script_text.specs.Stating.{spelling, word_spelled};

/// The word with which a line of a job begins.
#[derive(Clone, Copy)]
pub enum JobWord {
    Memory,
    System,
    App,
    File,
    Launch,
    Step,
    Turn,
    Quit,
    Rest,
}

/// The words of a job.
pub static JOB_WORDS: [JobWord; 9] = [
    JobWord::Memory,
    JobWord::System,
    JobWord::App,
    JobWord::File,
    JobWord::Launch,
    JobWord::Step,
    JobWord::Turn,
    JobWord::Quit,
    JobWord::Rest,
];

impl JobWord {
    /// Returns the spelling of the word.
    pub fn text(self) -> &'static [u8]
        ensures { result.now ≡ spelling self }
    {
        match self {
            JobWord::Memory => b"memory",
            JobWord::System => b"system",
            JobWord::App => b"app",
            JobWord::File => b"file",
            JobWord::Launch => b"launch",
            JobWord::Step => b"step",
            JobWord::Turn => b"turn",
            JobWord::Quit => b"quit",
            JobWord::Rest => b"rest",
        }
    }

    /// Returns the word that a token spells.
    #[tactic(auto, unfolding(crate::specs::Stating::word_spelled))]
    pub fn find(token: &[u8]) -> Option<JobWord>
        ensures { result ≡ word_spelled token.now }
    {
        JOB_WORDS.iter().copied().find(|word| word.text() == token)
    }
}
