//! The characters of bytes in Windows-1252.
use std::test::Fail;
use up_base::{DecodeFail, decode_1252};

#[test]
fn decodes_each_byte(rt: HostRuntime) -> Result<(), Fail> {
    let characters = [
        '€', '\u{FFFD}', '‚', 'ƒ', '„', '…', '†', '‡', 'ˆ', '‰', 'Š', '‹', 'Œ', '\u{FFFD}', 'Ž',
        '\u{FFFD}', '\u{FFFD}', '‘', '’', '“', '”', '•', '–', '—', '˜', '™', 'š', '›', 'œ',
        '\u{FFFD}', 'ž', 'Ÿ',
    ];
    for byte in 0..=255u8 {
        let character = match byte {
            0x80..=0x9F => characters[usize::from(byte - 0x80)],
            _ => char::from(byte),
        };
        match decode_1252(rt.alloc(), &[byte]) {
            Ok(text) => assert!(rt;
                matches!(text.as_slice(), [unit] if u32::from(*unit) == u32::from(character)),
                "{byte}"
            ),
            Err(fail) => assert!(rt;
                matches!(fail, DecodeFail::Undefined(0)) && character == '\u{FFFD}',
                "{byte}"
            ),
        }
    }
    Ok(())
}
