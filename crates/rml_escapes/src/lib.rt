//! How bytes are written in every text: with escapes, in quotes, and one byte many times. It knows nothing of what a literal is part
//! of, nor how literals are read.
#![tactic(auto)]

ghost use Rattle.rml_escapes.specs.Escapes.{escaped, quoted, character_text};
ghost use Rattle.std.specs.Prelude.{◌≡◌, ◌++◌, OnOk, replicate};

use rml_base::Memory;

/// Writes a byte of a char or a text.
fn write_escaped(out: &mut Vec<u8>, byte: u8) -> Result<(), Memory>
    ensures { OnOk result (out.new.items ≡ out.old.items ++ escaped byte) }
{
    match byte {
        b'\n' => out.extend_from_slice(b"\\n")?,
        b'\t' => out.extend_from_slice(b"\\t")?,
        b'\r' => out.extend_from_slice(b"\\r")?,
        b'\\' => out.extend_from_slice(b"\\\\")?,
        b'"' => out.extend_from_slice(b"\\\"")?,
        32..=126 => out.push(byte)?,
        _ => out.extend_from_slice(&[
            b'\\',
            b'0' + byte / 100,
            b'0' + byte / 10 % 10,
            b'0' + byte % 10,
        ])?,
    }
    Ok(())
}

/// Writes a text in its quotes behind what is there.
pub fn write_quoted(out: &mut Vec<u8>, bytes: &[u8]) -> Result<(), Memory>
    ensures { OnOk result (out.new.items ≡ out.old.items ++ quoted bytes.now) }
{
    out.push(b'"')?;
    for byte in bytes {
        write_escaped(out, *byte)?;
    }
    out.push(b'"')?;
    Ok(())
}

/// Writes a char behind what is there.
pub fn write_character(out: &mut Vec<u8>, byte: u8) -> Result<(), Memory>
    ensures { OnOk result (out.new.items ≡ out.old.items ++ character_text byte) }
{
    out.push(b'#')?;
    write_quoted(out, &[byte])
}

/// Writes one byte so many times.
pub fn write_repeated(out: &mut Vec<u8>, count: u32, byte: u8) -> Result<(), Memory>
    ensures { OnOk result (out.new.items ≡ out.old.items ++ replicate count byte) }
{
    for _done in 0..count {
        out.push(byte)?;
    }
    Ok(())
}

#[cfg(test)]
mod tests {
    use super::*;
    use std::test::Fail;

    #[test]
    fn bytes_are_escaped(rt: HostRuntime) -> Result<(), Fail> {
        let mut out = Vec::new(rt.alloc());
        write_quoted(&mut out, b"a\"\\\n\t\r\x00\x7f\xff ~")?;
        write_character(&mut out, b'\'')?;
        assert_eq!(rt;
            out.as_slice(),
            b"\"a\\\"\\\\\\n\\t\\r\\000\\127\\255 ~\"#\"'\"".as_slice()
        );
        Ok(())
    }
}
