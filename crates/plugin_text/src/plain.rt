//! Whether a text, or each text of a test, stands in JSON as it is.
ghost use Rattle.std.specs.Prelude.{◌≡◌};
ghost use Rattle.std.specs.List.{list_all};
ghost use Rattle.plugin_text.specs.Plain.{is_plain, is_plain_byte, is_plain_note, is_plain_sleep, is_plain_test};

use plugin_core::test_spec::{Sleep, TestSpec};
use ps_time::text::Text;

fn is_plain_byte(b: u8) -> bool
    ensures { result ≡ is_plain_byte b }
{
    b >= 32 && b != b'"' && b != b'\\'
}

/// Whether each byte of the text stands for itself in a JSON string.
pub fn is_plain(text: &Text) -> bool
    ensures { result ≡ is_plain text.now }
{
    all_plain(text.as_str().as_bytes())
}

fn all_plain(bytes: &[u8]) -> bool
    ensures { result ≡ list_all is_plain_byte bytes.now }
{
    for b in bytes {
        if !is_plain_byte(*b) {
            return false;
        }
    }
    true
}

fn is_plain_note(note: &Option<Text>) -> bool
    ensures { result ≡ is_plain_note note.now }
{
    match note {
        None => true,
        Some(text) => is_plain(text),
    }
}

fn is_plain_sleep(sleep: &Sleep) -> bool
    ensures { result ≡ is_plain_sleep sleep.now }
{
    is_plain_note(&sleep.starting_comment) && is_plain_note(&sleep.parting_comment)
}

/// Whether the texts of the test that may have any bytes are plain; names of hosts and lengths always are.
pub fn is_plain_test(test: &TestSpec) -> bool
    ensures { result ≡ is_plain_test test.now }
{
    match test {
        TestSpec::Idle(sleep) => is_plain_sleep(sleep),
        TestSpec::Idleex(sleep) => is_plain_sleep(sleep),
        TestSpec::Idlebgm { sleep, .. } => is_plain_sleep(sleep),
        TestSpec::Idlemany { sleep, .. } => is_plain_sleep(sleep),
        TestSpec::Simplestream { test_material, .. } => is_plain(test_material),
    }
}
