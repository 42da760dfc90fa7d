//! Streams over slices: the bytes that are left, the contents of the slice, and the length of the whole text.

ghost use Rattle.std.specs.Prelude.{◌≡◌, ◌++◌};
ghost use Rattle.memory_streams.specs.Text.{KeepsSlice, text_of, IsStored, count_of};

use far_io::{Sink, Source, write_all_of};
use memory_streams::{SliceSink, SliceSource};

// Adds a text to a sink, which keeps its slice.
fn add_text(sink: &mut SliceSink, text: &[u8])
    ensures added { text_of sink.new ≡ text_of sink.old ++ text.now }
    ensures kept { KeepsSlice sink.old sink.new }
{
    let _ = write_all_of(sink, text);
}

// Writes a text into a slice, and returns its length.
fn text_into(text: &[u8], out: &mut [u8]) -> u64
    ensures total { result ≡ count_of text.now }
    ensures stored { IsStored text.now out.old out.new }
{
    let mut sink = SliceSink::new(out);
    add_text(&mut sink, text);
    sink.finish()
}

// A text, its length in bytes, and the contents of a slice of four dots afterwards.
type Writing = (&'static str, u64, &'static str);

const WRITINGS: &[Writing] = &[
    ("", 0, "...."),
    ("abc", 3, "abc."),
    ("abcd", 4, "abcd"),
    ("abcdef", 6, "abcd"),
];

fn writings() -> &'static [Writing] {
    WRITINGS
}

#[test]
fn the_slice_gets_what_fits(rt: HostRuntime) {
    for row in writings() {
        let &(text, total, held) = row;
        let mut out = *b"....";
        assert_eq!(rt; text_into(text.as_bytes(), &mut out), total);
        assert_eq!(rt; out.as_slice(), held.as_bytes());
    }
}

#[test]
fn pieces_stand_behind_one_another(rt: HostRuntime) {
    let mut out = *b"....";
    let mut sink = SliceSink::new(&mut out);
    assert_eq!(rt; sink.write(b"ab"), Ok(2));
    assert_eq!(rt; sink.write(b"cde"), Ok(2));
    assert_eq!(rt; sink.write(b"e"), Ok(1));
    assert_eq!(rt; sink.flush(), Ok(()));
    assert_eq!(rt; sink.total(), 5);
    assert_eq!(rt; sink.finish(), 5);
    assert_eq!(rt; &out, b"abcd");
}

#[test]
fn a_slice_is_read_to_its_end(rt: HostRuntime) {
    let mut source = SliceSource::new(b"abcde");
    let mut piece = [0u8; 3];
    assert_eq!(rt; source.read(&mut piece), Ok(3));
    assert_eq!(rt; &piece, b"abc");
    assert_eq!(rt; source.read(&mut piece), Ok(2));
    assert_eq!(rt; &piece, b"dec");
    assert_eq!(rt; source.read(&mut piece), Ok(0));
}
