//! The lines of a head, as its bytes come.
ghost use Rattle.std.specs.Prelude.{◌≡◌};
ghost use Rattle.ps_http.specs.Scan.{is_ended, position_after, positions_after};

/// Where in a head's lines the bytes so far end.
#[derive(Clone, Copy)]
pub enum LinePosition {
    /// Before the first line, at the start of a line.
    Before,
    /// Before the first line, behind a CR at the start of a line.
    BeforeCr,
    /// Inside a line.
    Inside,
    /// Behind the first line, at the start of a line.
    Start,
    /// Behind the first line, behind a CR at the start of a line.
    StartCr,
    /// Behind the empty line that ends the head.
    Ended,
}

impl LinePosition {
    fn after(self, byte: u8) -> LinePosition
        ensures { result ≡ position_after self byte }
    {
        match (self, byte) {
            (LinePosition::Ended, _) => LinePosition::Ended,
            (LinePosition::Before | LinePosition::BeforeCr, b'\n') => LinePosition::Before,
            (LinePosition::Before, b'\r') => LinePosition::BeforeCr,
            (LinePosition::Start | LinePosition::StartCr, b'\n') => LinePosition::Ended,
            (LinePosition::Start, b'\r') => LinePosition::StartCr,
            (LinePosition::Inside, b'\n') => LinePosition::Start,
            _ => LinePosition::Inside,
        }
    }

    /// Whether the head has ended.
    pub fn is_ended(self) -> bool
        ensures { result ≡ is_ended self }
    {
        matches!(self, LinePosition::Ended)
    }

    /// The place after more bytes.
    pub fn after_all(self, bytes: &[u8]) -> LinePosition
        ensures { result ≡ positions_after self bytes.now }
    {
        let mut place = self;
        for byte in bytes {
            place = place.after(*byte);
        }
        place
    }
}
