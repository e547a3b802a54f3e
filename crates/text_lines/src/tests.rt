//! Spellings that are numbers and spellings that aren't, and the words of lines.

use super::*;

#[test]
fn numbers_have_their_spellings(rt: HostRuntime) {
    let rows: [(&[u8], Option<u64>); 8] = [
        (b"0", Some(0)),
        (b"10", Some(10)),
        (b"9999999999999999999", Some(9999999999999999999)),
        (b"10000000000000000000", None),
        (b"00", None),
        (b"01", None),
        (b"1a", None),
        (b"", None),
    ];
    for (bytes, number) in rows {
        let read = read_numeral(bytes);
        assert!(rt; read == number);
    }
}

#[test]
fn whole_numbers_have_their_spellings(rt: HostRuntime) {
    let rows: [(&[u8], bool, Option<i32>); 8] = [
        (b"-1", true, Some(-1)),
        (b"-2147483648", true, Some(-2147483648)),
        (b"-2147483649", true, None),
        (b"2147483647", true, Some(2147483647)),
        (b"2147483648", true, None),
        (b"-0", false, None),
        (b"-", false, None),
        (b"--1", false, None),
    ];
    for (bytes, form, number) in rows {
        let read = read_integer(bytes);
        assert!(rt; read == number);
        let looks = is_integer(bytes);
        assert!(rt; looks == form);
    }
}

fn words_in(line: &[u8]) -> Option<usize> {
    let words = words_of(line)?;
    Some(words.as_slice().len())
}

#[test]
fn a_line_has_its_words(rt: HostRuntime) {
    let rows: [(&[u8], Option<usize>); 6] = [
        (b"", Some(1)),
        (b"end", Some(1)),
        (b"a  b", Some(3)),
        (b"a b ", Some(3)),
        (b"1 2 3 4 5 6 7 8 9", Some(9)),
        (b"1 2 3 4 5 6 7 8 9 ", None),
    ];
    for (line, count) in rows {
        let words = words_in(line);
        assert!(rt; words == count);
    }
}

#[test]
fn words_have_the_shapes_of_a_form(rt: HostRuntime) {
    let shapes = [Shape::Integer, Shape::Word];
    let fits = have_shapes(&shapes, &[b"-3".as_slice(), b"record".as_slice()]);
    assert!(rt; fits);
    let fits = have_shapes(&shapes, &[b"-3".as_slice(), b"".as_slice()]);
    assert!(rt; !fits);
    let fits = have_shapes(&shapes, &[b"-3".as_slice()]);
    assert!(rt; !fits);
}

#[test]
fn a_text_is_cut_at_its_first_line_feed(rt: HostRuntime) {
    let cut = next_line(b"one\ntwo\nthree");
    assert!(rt; cut == Some((b"one".as_slice(), b"two\nthree".as_slice())));
    let cut = next_line(b"three");
    assert!(rt; cut.is_none());
}
