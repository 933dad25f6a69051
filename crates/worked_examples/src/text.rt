// The rules on examples.
use lines::line::{Line, LineBuffer};
use std::test::Fail;
use words::numeral::decimal;
use words::word::split_word;

#[test]
fn words_are_parted_by_spaces(rt: HostRuntime) -> Result<(), Fail> {
    let (first, rest) = split_word(b"  ab  12 ").ok_or("no word")?;
    assert!(rt; first == b"ab".as_slice());
    let (second, rest) = split_word(rest).ok_or("no second word")?;
    assert!(rt; second == b"12".as_slice());
    assert!(rt; rest == b" ".as_slice());
    assert!(rt; split_word(rest).is_none());
    Ok(())
}

#[test]
fn decimals_stay_below_two_to_the_64(rt: HostRuntime) {
    assert_eq!(rt; decimal(b"18446744073709551615"), Some(u64::MAX));
    assert_eq!(rt; decimal(b"18446744073709551616"), None);
    assert_eq!(rt; decimal(b"00018446744073709551615"), Some(u64::MAX));
    assert_eq!(rt; decimal(b"007"), Some(7));
    assert_eq!(rt; decimal(b""), None);
    assert_eq!(rt; decimal(b"1x"), None);
}

#[test]
fn return_before_line_feed_is_dropped(rt: HostRuntime) -> Result<(), Fail> {
    let mut buffer = LineBuffer::new();
    assert_eq!(rt; buffer.feed(b"ab\r\ncd"), Some(4));
    let Line::Text(text) = buffer.line() else {
        return Err(Fail::new("no text"));
    };
    assert!(rt; text == b"ab".as_slice());
    Ok(())
}

#[test]
fn return_before_the_end_is_kept(rt: HostRuntime) {
    let mut buffer = LineBuffer::new();
    assert_eq!(rt; buffer.feed(b"ab\r"), None);
    buffer.end_of_input();
    assert!(rt; matches!(buffer.line(), Line::Unreadable));
}

#[test]
fn comment_may_have_any_byte(rt: HostRuntime) {
    let mut buffer = LineBuffer::new();
    assert_eq!(rt; buffer.feed(b"#\xff\t\n"), Some(4));
    assert!(rt; matches!(buffer.line(), Line::Passed));
}
