use crate::{
    CellStyle, Color, Script, Size, Styles, alignment_text, borders_text, cell_marks_text,
    fill_text, font_marks_text,
};
use std::alloc::{AllocError, Global};
use xls_record::Biff;
use xls_text::XlsEncoding;

// The globals of a workbook of BIFF8: five fonts, of which the fifth has all marks, and one of 14 bytes; two formats of one
// identifier; a palette of one colour; an XF of the fifth font with a pattern and lines, one that is plain, and one of 7
// bytes; behind the EOF another font.
static GLOBALS: [u8; 261] = [
    9, 8, 4, 0, 0, 6, 5, 0, 0x31, 0, 0x15, 0, 0xC8, 0, 0, 0, 0xFF, 0x7F, 0x90, 1, 0, 0, 0, 0, 0, 0,
    5, 0, 0x41, 0x72, 0x69, 0x61, 0x6C, 0x31, 0, 0x13, 0, 0xD2, 0, 0, 0, 8, 0, 0x90, 1, 0, 0, 0, 0,
    0, 0, 3, 0, 0x54, 0x77, 0x6F, 0x31, 0, 0x11, 0, 0xD2, 0, 0, 0, 8, 0, 0x90, 1, 0, 0, 0, 0, 0, 0,
    1, 0, 0x33, 0x31, 0, 0x11, 0, 0xD2, 0, 0, 0, 8, 0, 0x90, 1, 0, 0, 0, 0, 0, 0, 1, 0, 0x34, 0x31,
    0, 0x14, 0, 0xCD, 0, 0xA, 0, 0xA, 0, 0xBC, 2, 1, 0, 2, 0, 0, 0, 4, 0, 0x46, 0xFC, 0x6E, 0x66,
    0x31, 0, 0xE, 0, 0, 0, 0, 0, 0, 0, 0, 0, 0, 0, 0, 0, 0, 0, 0x1E, 4, 6, 0, 0xA4, 0, 1, 0, 0,
    0x30, 0x1E, 4, 8, 0, 0xA4, 0, 3, 0, 0, 0x30, 0x2E, 0x30, 0x92, 0, 6, 0, 1, 0, 1, 2, 3, 0, 0xE0,
    0, 0x14, 0, 5, 0, 0xA4, 0, 2, 0, 0x1A, 0x2D, 2, 0, 1, 0x60, 8, 0xC0, 0, 0xA0, 0xE2, 0x10, 0x8A,
    0x20, 0xE0, 0, 0x14, 0, 0, 0, 5, 0, 1, 0, 0x20, 0, 0, 0, 0, 0, 0, 0, 0, 0, 0, 0, 0, 0, 0xE0, 0,
    7, 0, 6, 0, 0xE, 0, 1, 0, 0x21, 0xA, 0, 0, 0, 0x31, 0, 0x16, 0, 0xC8, 0, 0, 0, 0xFF, 0x7F,
    0x90, 1, 0, 0, 0, 0, 0, 0, 6, 0, 0x42, 0x65, 0x68, 0x69, 0x6E, 0x64,
];

// The globals of BIFF5: a font, a format in the place of one that is built in, and an XF with lines.
static EARLY: [u8; 65] = [
    9, 8, 4, 0, 0, 5, 5, 0, 0x31, 0, 0x14, 0, 0xC8, 0, 0, 0, 0xFF, 0x7F, 0x90, 1, 0, 0, 0, 0, 0, 0,
    5, 0x41, 0x72, 0x69, 0x61, 0x6C, 0x1E, 4, 5, 0, 5, 0, 2, 0x40, 0x40, 0xE0, 0, 0x10, 0, 0, 0, 5,
    0, 1, 0, 0x21, 2, 0x98, 0x20, 0x41, 0x15, 0x11, 0x10, 9, 0, 0xA, 0, 0, 0,
];

fn told(alloc: Global, style: &CellStyle<'_>) -> Result<String, AllocError> {
    let mut text = String::new(alloc);
    let marks = cell_marks_text(alloc, &style.font.marks, style.protection)?;
    write!(text, "{marks}|{}|{}|", style.code, style.font.name)?;
    if let Some(size) = style.font.size {
        write!(text, "{size}")?;
    }
    let fill = fill_text(alloc, &style.fill)?;
    let alignment = alignment_text(alloc, &style.alignment)?;
    let borders = borders_text(alloc, &style.borders)?;
    write!(text, "|{}|{fill}|{alignment}|{borders}", style.font.color)?;
    Ok(text)
}

// The expected texts follow from the bytes by [MS-XLS].
#[test]
fn tells_styles(rt: HostRuntime) -> Result<(), AllocError> {
    let styles = Styles::read(rt.alloc(), &GLOBALS, Biff::Biff8, &XlsEncoding::Windows1252)?;
    let marked = told(rt.alloc(), &styles.cell(0))?;
    let plain = told(rt.alloc(), &styles.cell(1))?;
    let short = told(rt.alloc(), &styles.cell(2))?;
    let none = told(rt.alloc(), &styles.cell(3))?;
    assert!(rt;
        marked.as_str().starts_with(
            "bold italic strike double superscript unlocked concealed|0.0|F\u{FC}nf|10.25|#ff0000|4 #ff0000 auto|"
        )
    );
    assert!(rt;
        marked.as_str().ends_with(
            "|center center wrap indent:2 turn:45|left:thin:#010203 bottom:double:auto cross:hair:#ff0000"
        )
    );
    assert!(rt; plain.as_str() == "|$#,##0_);($#,##0)|Arial|10|auto|||");
    assert!(rt; short.as_str() == "|m/d/yy||0|auto||left|");
    assert!(rt; none.as_str() == "||||auto|||");
    Ok(())
}

#[test]
fn tells_fonts_and_damage(rt: HostRuntime) -> Result<(), AllocError> {
    let styles = Styles::read(rt.alloc(), &GLOBALS, Biff::Biff8, &XlsEncoding::Windows1252)?;
    let fifth = styles.font(5);
    let marks = font_marks_text(rt.alloc(), &fifth.marks)?;
    assert!(rt; marks.as_str() == "bold italic strike double superscript");
    assert!(rt; fifth.marks.script == Script::Superscript && fifth.color == Color::Rgb(0xFF_0000));
    assert!(rt; fifth.size == Some(Size { twentieths: 205 }));
    assert!(rt; styles.font(4).size == None && styles.font(7).name == "");
    let damages = styles.damages();
    assert!(rt; damages.len() == 2);
    let font = format!(in rt.alloc();
        "{} {} {}",
        damages[0].record_name, damages[0].offset, damages[0].flaw
    )?;
    let xf = format!(in rt.alloc();
        "{} {} {}",
        damages[1].record_name, damages[1].offset, damages[1].flaw
    )?;
    assert!(rt; font.as_str() == "Font 122 shorter than 15 bytes: 14");
    assert!(rt; xf.as_str() == "XF 220 shorter than 20 bytes: 7");
    Ok(())
}

#[test]
fn tells_styles_before_biff8(rt: HostRuntime) -> Result<(), AllocError> {
    let styles = Styles::read(rt.alloc(), &EARLY, Biff::Biff5, &XlsEncoding::Windows1252)?;
    let text = told(rt.alloc(), &styles.cell(0))?;
    assert!(rt;
        text.as_str()
            .starts_with("|@@|Arial|10|auto|#8080ff|left turn:90|")
    );
    assert!(rt;
        text.as_str().ends_with("|left:medium:#ffffff top:thin:#000000 bottom:thick:#ff0000")
    );
    Ok(())
}
