//! Where the bytes of a text stand.

ghost use Rattle.rml_base.specs.declared.limits.TheConstants.{BYTES};
ghost use Rattle.rml_lex.specs.Places.{place_after, start};
ghost use Rattle.std.specs.Prelude.{◌≡◌, ◌+◌, ◌<◌, ◌≤◌, ◌^◌, length};

use rml_base::Place;

/// Lines and columns are counted from here.
const FIRST: u32 = 1;

/// The place of the first byte of a text.
pub fn start_place(text: u32) -> Place
    ensures { result ≡ start text }
{
    Place {
        text,
        line: FIRST,
        column: FIRST,
    }
}

/// The place behind some bytes that stand at a place.
pub fn further(from: Place, bytes: &[u8]) -> Place
    requires line { from.line + length bytes.now < 2 ^ 32 }
    requires column { from.column + length bytes.now < 2 ^ 32 }
    ensures value { result ≡ place_after from bytes.now }
    ensures line_within { result.line ≤ from.line + length bytes.now }
    ensures column_within { result.column ≤ from.column + length bytes.now }
{
    let mut place = from;
    for b in bytes {
        if *b == b'\n' {
            place = Place {
                text: place.text,
                line: place.line + 1,
                column: FIRST,
            };
        } else {
            place = Place {
                text: place.text,
                line: place.line,
                column: place.column + 1,
            };
        }
    }
    place
}

/// The place behind the last byte of a text.
pub fn end_place(text: u32, bytes: &[u8]) -> Place
    requires { length bytes.now ≤ BYTES }
    ensures { result ≡ place_after (start text) bytes.now }
{
    further(start_place(text), bytes)
}
