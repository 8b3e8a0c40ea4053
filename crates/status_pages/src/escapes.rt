// Names as they stand in the pages.
ghost use Rattle.std.specs.Prelude.{OnOk};
ghost use Rattle.std.specs.Io.KnownBytes.{Appends};
ghost use Rattle.status_pages.specs.Escapes.{label_byte, label_text, html_byte, html_text};

use std::io;
use std::io::Write;

/// Writes a text as it stands between the quotation marks of a label's value.
pub(crate) fn write_label<W: Write>(text: &str, writer: &mut W) -> io::Result<()>
    ensures { OnOk result (Appends (W.contents writer.old) (W.contents writer.new) (label_text text.now)) }
{
    let bytes = text.as_bytes();
    for byte in bytes {
        write_label_byte(*byte, writer)?;
    }
    Ok(())
}

fn write_label_byte<W: Write>(byte: u8, writer: &mut W) -> io::Result<()>
    ensures { OnOk result (Appends (W.contents writer.old) (W.contents writer.new) (label_byte byte)) }
{
    match byte {
        b'\\' => writer.write_all(b"\\\\"),
        b'"' => writer.write_all(b"\\\""),
        b'\n' => writer.write_all(b"\\n"),
        _ => writer.write_all(&[byte]),
    }
}

/// Writes a text as it stands in HTML.
pub(crate) fn write_html<W: Write>(text: &str, writer: &mut W) -> io::Result<()>
    ensures { OnOk result (Appends (W.contents writer.old) (W.contents writer.new) (html_text text.now)) }
{
    let bytes = text.as_bytes();
    for byte in bytes {
        write_html_byte(*byte, writer)?;
    }
    Ok(())
}

fn write_html_byte<W: Write>(byte: u8, writer: &mut W) -> io::Result<()>
    ensures { OnOk result (Appends (W.contents writer.old) (W.contents writer.new) (html_byte byte)) }
{
    match byte {
        b'&' => writer.write_all(b"&amp;"),
        b'<' => writer.write_all(b"&lt;"),
        b'>' => writer.write_all(b"&gt;"),
        b'"' => writer.write_all(b"&quot;"),
        b'\'' => writer.write_all(b"&#39;"),
        _ => writer.write_all(&[byte]),
    }
}
