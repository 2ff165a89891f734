// Known values of each public call, worked by hand.

use crate::fields::field_before;
use crate::line_buffer::LineBuffer;
use crate::lines::next_line;
use crate::numbers::{
    number_in, read_byte_pair, read_decimal, read_hexadecimal, read_plain_decimal,
};
use crate::separator::{begins_with_separator, cut_at_separator, cut_text, is_separator};
use crate::spelling::{read_pair, read_plain_hexadecimal};
use crate::words::{has_no_word, is_word, next_word};
use std::process::Abort;
use std::test::Fail;

#[test]
fn lines_are_found(rt: HostRuntime) {
    let (line, rest) = next_line(b"a\r\n%%\n\tread  cpu \n");
    assert!(rt; is_word(line, b"a"));
    assert!(rt; begins_with_separator(rest));
    assert!(rt; !is_separator(line));
}

#[test]
fn bytes_are_cut_at_the_separator(rt: HostRuntime) -> Result<(), Fail> {
    let (before, after) = cut_at_separator(b"a\r\n%%\n\tread  cpu \n").ok_or("not cut")?;
    assert!(rt; is_word(before, b"a\r\n"));
    let (word, behind) = next_word(after).ok_or("no word")?;
    assert!(rt; is_word(word, b"read"));
    assert!(rt; !has_no_word(behind));
    Ok(())
}

#[test]
fn texts_are_cut_at_the_separator(rt: HostRuntime) -> Result<(), Fail> {
    let (before, after) = cut_text("é\n%%").ok_or("not cut")?;
    assert_eq!(rt; before, "é\n");
    assert!(rt; after.is_empty());
    Ok(())
}

/// Fails where a word isn't read as this decimal number below 100.
fn compare_decimal(rt: &impl Abort, word: &str, value: Option<u64>) {
    assert_eq!(rt; read_decimal(word.as_bytes(), 100), value, "at {word}");
}

#[test]
fn decimals_are_read(rt: HostRuntime) {
    compare_decimal(&rt, "0042", Some(42));
    compare_decimal(&rt, "99", Some(99));
    compare_decimal(&rt, "100", None);
    compare_decimal(&rt, "", None);
    compare_decimal(&rt, "00000000042", None);
    assert_eq!(rt; read_plain_decimal(b"42", 100), Some(42));
    assert_eq!(rt; read_plain_decimal(b"042", 100), None);
    assert_eq!(rt; number_in(b"zz", 36, 1296), Some(1295));
}

/// Fails where a word isn't read as this hexadecimal number below 256.
fn compare_hexadecimal(rt: &impl Abort, word: &str, value: Option<u64>) {
    assert_eq!(rt; read_hexadecimal(word.as_bytes(), 256), value, "at {word}");
}

#[test]
fn hexadecimals_are_read(rt: HostRuntime) {
    compare_hexadecimal(&rt, "0xfF", Some(255));
    compare_hexadecimal(&rt, "0x100", None);
    compare_hexadecimal(&rt, "0x", None);
    compare_hexadecimal(&rt, "fF", None);
    assert_eq!(rt; read_byte_pair(b"7f"), Some(127));
    assert_eq!(rt; read_pair(b'a', b'0'), Some(160));
}

#[test]
fn fields_are_read(rt: HostRuntime) -> Result<(), Fail> {
    let (field, rest) = field_before(b"ffc,1", b',').ok_or("no field")?;
    assert_eq!(rt; read_plain_hexadecimal(field, 4095), Some(4092));
    assert_eq!(rt; read_plain_hexadecimal(field, 4091), None);
    assert_eq!(rt; read_plain_hexadecimal(b"Ff", 4095), None);
    assert!(rt; is_word(rest, b"1"));
    Ok(())
}

#[test]
fn lines_are_written(rt: HostRuntime) -> Result<(), Fail> {
    let mut line = LineBuffer::new(rt.alloc())?;
    line.push(b"dropped");
    line.clear();
    line.push_decimal(u64::MAX);
    line.push(b" ");
    line.push_hexadecimal(u128::MAX);
    line.push(b" ");
    line.push_hexadecimal(0);
    line.push(b":");
    line.push_pairs(&[0, 10, 255]);
    assert!(rt;
        is_word(
            line.bytes(),
            b"18446744073709551615 ffffffffffffffffffffffffffffffff 0:000aff"
        )
    );
    Ok(())
}
