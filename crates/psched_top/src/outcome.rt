//! What a call of psched comes to: its status, and the text that it writes.
ghost use Rattle.std.specs.Prelude.{◌≡◌};
ghost use Rattle.psched_top.specs.Outcome.{status_of, text_of};

use ps_time::items::Items;
use ps_time::text::Text;

const USAGE: &str =
    "usage: psched rehearse | validate-limits | generate N | daemon OPTIONS PEER... | task URL | result URL | cancel URL | clock URL | schedule URL [START END]\n";

/// What a call comes to. Each text ends with a line feed, or is empty. A report is bytes, since what it shows of a response may be
/// any.
pub enum Outcome {
    /// The usage line was asked for.
    Usage,
    /// The version was asked for.
    Version,
    /// The report on the script.
    Report(Items<u8>),
    /// The input is a configuration of limits: how many entries it has.
    Valid(Text),
    /// The summary of generated work.
    Summary(Text),
    /// The words aren't in the grammar.
    WrongWords,
    /// The input isn't in the command's grammar: its first refusal.
    Refused(Text),
    /// More than `MAX_INPUT` bytes came.
    TooLong,
    /// The source failed.
    CannotRead,
}

impl Drop for Outcome {
    fn drop(self) {
        match self {
            Outcome::Usage => {}
            Outcome::Version => {}
            Outcome::Report(_) => {}
            Outcome::Valid(_) => {}
            Outcome::Summary(_) => {}
            Outcome::WrongWords => {}
            Outcome::Refused(_) => {}
            Outcome::TooLong => {}
            Outcome::CannotRead => {}
        }
    }
}

impl Outcome {
    /// The status with which psched ends.
    pub fn status(&self) -> u8
        ensures { result ≡ status_of self.now }
    {
        match self {
            Outcome::Usage
            | Outcome::Version
            | Outcome::Report(_)
            | Outcome::Valid(_)
            | Outcome::Summary(_) => 0,
            Outcome::WrongWords => 1,
            Outcome::Refused(_) | Outcome::TooLong => 2,
            Outcome::CannotRead => 3,
        }
    }

    /// What psched writes.
    pub fn bytes(&self) -> &[u8]
        ensures { result.now ≡ text_of self.now }
    {
        match self {
            Outcome::Usage | Outcome::WrongWords => USAGE.as_bytes(),
            Outcome::Version => b"psched 0.1.0\n",
            Outcome::Report(bytes) => bytes.as_slice(),
            Outcome::Valid(text) | Outcome::Summary(text) | Outcome::Refused(text) => {
                text.as_str().as_bytes()
            }
            Outcome::TooLong => b"input too long\n",
            Outcome::CannotRead => b"cannot read\n",
        }
    }
}
