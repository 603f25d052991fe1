//! The words behind the program's name.

ghost use Rattle.std.specs.Prelude.{◌≡◌, ◌∷◌, [], ◌↔◌, ℕ, IsTrue, MatchOption, SomeIff, map, unwrap_or};
ghost use Rattle.std.specs.String.{string_bytes};
ghost use Rattle.np_frac.specs.Text.{number};
ghost use Rattle.netplan_top.specs.Words.{AskFor, AskForDemo, IsCountTo, ReadsInput};
ghost use Rattle.netplan_top.specs.Steps.Options.{AreTheRestOf};
ghost use Rattle.netplan_top.specs.declared.words.Job.{Job};

use np_frac::read_number;

/// How a network is to be solved: by 1 to 16 workers, with a budget of 1 to 1,000,000 pivots, and whether the log is printed.
#[derive(Clone, Copy, PartialEq, Eq)]
pub(crate) struct Job {
    pub workers: u32,
    pub budget: u32,
    pub log: bool,
}

/// What the program can be asked to say of an input.
#[derive(Clone, Copy, PartialEq, Eq)]
pub(crate) enum Command {
    /// A least-cost plan of a network.
    Solve(Job),
    /// Whether a plan is a least-cost plan of a network.
    Check,
    /// The expanded network.
    Expand,
}

/// The options of `solve` that were taken so far.
#[derive(Clone, Copy, PartialEq, Eq)]
pub(crate) struct Given {
    pub workers: Option<u32>,
    pub budget: Option<u32>,
    pub log: bool,
}

impl Given {
    // The job, with 4 workers and a budget of 200,000 pivots where nothing else is said.
    fn job(self) -> Job
        ensures workers { result.workers ≡ unwrap_or self.workers 4 }
        ensures budget { result.budget ≡ unwrap_or self.budget 200000 }
        ensures log { result.log ≡ self.log }
    {
        Job {
            workers: self.workers.unwrap_or(4),
            budget: self.budget.unwrap_or(200_000),
            log: self.log,
        }
    }
}

// Whether a word is this text.
fn is_text(word: &String, text: &str) -> bool
    ensures { IsTrue result ↔ (string_bytes word.now ≡ text.now) }
{
    word.as_str() == text
}

// Whether the words are this one word.
fn is_word(words: &[String], word: &str) -> bool
    ensures { IsTrue result ↔ (map string_bytes words.now ≡ word.now ∷ []) }
{
    words.len() == 1 && words[0].as_str() == word
}

// The number from 1 to this one that the 1 to 7 digits of a word write.
fn count_to(most: u32, word: &String) -> Option<u32>
    ensures { SomeIff result (IsCountTo most (string_bytes word.now)) (number (string_bytes word.now)) }
{
    match read_number(word.as_bytes(), 7) {
        Some(number) if number < 1 => None,
        Some(number) if u64::from(most) < number => None,
        Some(number) => Some(number as u32),
        None => None,
    }
}

// The job of the options that these words are, behind those that were taken.
fn job_of(words: &[String], given: Given) -> Option<Job>
    ensures { MatchOption result
        ((job : Job) → ¬ (AreTheRestOf (map string_bytes words.now) given job))
        (λ job. AreTheRestOf (map string_bytes words.now) given job) }
{
    if words.is_empty() {
        return Some(given.job());
    }
    let first = &words[0];
    if is_text(first, "--log") {
        if given.log {
            return None;
        }
        return job_of(&words[1..], Given { log: true, ..given });
    }
    if words.len() == 1 {
        return None;
    }
    if is_text(first, "--workers") {
        if given.workers.is_some() {
            return None;
        }
        let workers = Some(count_to(16, &words[1])?);
        return job_of(&words[2..], Given { workers, ..given });
    }
    if is_text(first, "--budget") {
        if given.budget.is_some() {
            return None;
        }
        let budget = Some(count_to(1_000_000, &words[1])?);
        return job_of(&words[2..], Given { budget, ..given });
    }
    None
}

/// The command that the words name, of those that read an input.
pub(crate) fn command_of(words: &[String]) -> Option<Command>
    ensures { MatchOption result (¬ (ReadsInput words.now)) (λ command. AskFor words.now command) }
{
    if is_word(words, "check") {
        return Some(Command::Check);
    }
    if is_word(words, "expand") {
        return Some(Command::Expand);
    }
    if words.is_empty() {
        return None;
    }
    if !is_text(&words[0], "solve") {
        return None;
    }
    let none = Given {
        workers: None,
        budget: None,
        log: false,
    };
    Some(Command::Solve(job_of(&words[1..], none)?))
}

/// The number of the demo that the words ask for.
pub(crate) fn demo_of(words: &[String]) -> Option<u32>
    ensures { MatchOption result ((n : ℕ) → ¬ (AskForDemo words.now n)) (λ n. AskForDemo words.now n) }
{
    if words.len() != 2 {
        return None;
    }
    if !is_text(&words[0], "demo") {
        return None;
    }
    count_to(1000, &words[1])
}
