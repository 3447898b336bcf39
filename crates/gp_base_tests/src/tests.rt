ghost use Rattle.std.specs.Prelude.{◌≡◌, ◌+◌, ◌<◌};

use gp_base::{
    Failed, Key, KeyKind, Level, MemoryOut, MemorySource, Mode, Octets, Out, ReadSource, Reader,
    Source, Src, Steps, Word, WriteOut, derived_group, field, place,
};
use std::marker::Brand;
use std::sync::ledger::{Blank, Ledger};
use std::test::Fail;

#[test]
fn lists_of_octets(rt: HostRuntime) -> Result<(), Fail> {
    let longest = [7u8; 127];
    let mut octets = Octets::of(&longest).ok_or("127 octets are a list")?;
    assert!(rt; Octets::of(&[7u8; 128]).is_none());
    assert!(rt; !octets.push(8));
    assert_eq!(rt; octets.as_slice(), longest.as_slice());
    let mut short = Octets::new();
    assert!(rt; short.push(1));
    assert!(rt; short.push(2));
    assert_eq!(rt; short.copy().as_slice(), [1, 2].as_slice());
    assert!(rt; short == short.clone()?);
    Ok(())
}

#[test]
fn words_and_readers(rt: HostRuntime) -> Result<(), Fail> {
    let word = Word::of(rt.alloc(), "decode").ok().ok_or("memory")?;
    assert_eq!(rt; word.as_slice(), b"decode".as_slice());
    let mut reader = Reader::new(&[1, 2, 3]);
    assert_eq!(rt; reader.take(2), Some([1, 2].as_slice()));
    assert!(rt; reader.take(2).is_none());
    assert_eq!(rt; reader.place(), 2);
    assert_eq!(rt; reader.take(1), Some([3].as_slice()));
    Ok(())
}

// The examples of the derived group, and the bounds of SrcIDs.
#[test]
fn sources(rt: HostRuntime) {
    let groups = [
        (0x8765_4321, 0x4321),
        (0x1234_0000, 0x1234),
        (0x0000_FFFF, 0xFFF7),
        (0xFFF8_0000, 0x0007),
    ];
    for (source, group) in groups {
        assert_eq!(rt; derived_group(Src(source)), group, "of {source:08x}");
    }
    let sources = [
        (0, false),
        (1, true),
        (0xFFFF_FFF8, true),
        (0xFFFF_FFF9, false),
        (0xFFFF_FFFF, false),
    ];
    for (source, pairable) in sources {
        assert_eq!(rt; Src(source).pairable(), pairable, "{source:08x}");
    }
}

// The numbers of kinds, levels and modes, both ways.
#[test]
fn numbers_of_kinds(rt: HostRuntime) {
    let kinds = [
        (KeyKind::Nwk, 1, false),
        (KeyKind::Group, 2, false),
        (KeyKind::DerivedGroup, 3, false),
        (KeyKind::OutOfBox, 4, true),
        (KeyKind::DerivedIndividual, 7, true),
    ];
    for (kind, number, individual) in kinds {
        assert_eq!(rt; kind.number(), number);
        assert_eq!(rt; KeyKind::of_number(number), Some(kind));
        assert_eq!(rt; kind.individual(), individual);
    }
    assert_eq!(rt; KeyKind::of_number(5), None);
}

#[test]
fn numbers_of_levels(rt: HostRuntime) {
    for (level, number) in [(Level::Two, 2), (Level::Three, 3)] {
        assert_eq!(rt; level.number(), number);
        assert_eq!(rt; Level::of_number(number), Some(level));
    }
    assert_eq!(rt; Level::of_number(1), None);
}

#[test]
fn numbers_of_modes(rt: HostRuntime) {
    let modes = [
        (Mode::Derived, 1),
        (Mode::Commissioned, 2),
        (Mode::Unicast, 3),
    ];
    for (mode, number) in modes {
        assert_eq!(rt; mode.number(), number);
        assert_eq!(rt; Mode::of_number(number), Some(mode));
    }
    assert_eq!(rt; Mode::of_number(0), None);
}

// A key is printed without its octets, also inside another value.
#[test]
fn a_printed_key(rt: HostRuntime) -> Result<(), Fail> {
    let key = Key([0xC5; 16]);
    let text = format!(in rt.alloc(); "{key:?}")?;
    assert_eq!(rt; text.as_str(), "Key(..)");
    let inside = Some(key);
    let text = format!(in rt.alloc(); "{inside:?}")?;
    assert_eq!(rt; text.as_str(), "Some(Key(..))");
    Ok(())
}

#[test]
fn fields_that_are_taken(rt: HostRuntime) -> Result<(), Fail> {
    let mut reader = Reader::new(&[2, 0xA1, 0xA2, 0x34, 0x12, 3, 0xB1]);
    assert_eq!(rt; reader.length(), 7);
    let list = field::counted(&mut reader).ok().ok_or("a list of two")?;
    assert_eq!(rt; list.as_slice(), [0xA1, 0xA2].as_slice());
    assert_eq!(rt; field::number16(&mut reader), Ok(0x1234));
    Ok(())
}

// What is missing leaves a reader as it was; the rest leaves it at the end.
#[test]
fn fields_that_are_missing(rt: HostRuntime) {
    let mut reader = Reader::new(&[3, 0xB1]);
    assert!(rt; field::counted(&mut reader).is_err());
    assert_eq!(rt; field::number64(&mut reader), Err(field::Short));
    assert_eq!(rt; field::rest(&mut reader).as_slice(), [3, 0xB1].as_slice());
    assert_eq!(rt; reader.place(), 2);
}

// What has no room leaves a list as it was.
#[test]
fn fields_that_are_added(rt: HostRuntime) -> Result<(), Fail> {
    let list = Octets::of(&[0xA1, 0xA2]).ok_or("two octets are a list")?;
    let mut out = Octets::of(&[7u8; 125]).ok_or("125 octets are a list")?;
    assert_eq!(rt; field::add_counted(&mut out, &list), Err(field::NoRoom));
    assert_eq!(rt; field::add_number32(&mut out, 1), Err(field::NoRoom));
    assert_eq!(rt; field::add_number16(&mut out, 0x1234), Ok(()));
    assert_eq!(rt; &out.as_slice()[124..], [7, 0x34, 0x12].as_slice());
    Ok(())
}

#[test]
fn places(rt: HostRuntime) -> Result<(), Fail> {
    let octets = [1, 2, 3, 4, 5, 6, 7, 8, 9, 10, 11, 12, 13, 14, 15, 16, 17];
    assert_eq!(rt; place::two_at(&octets, 1), 0x0302);
    assert_eq!(rt; place::four_at(&octets, 1), 0x0504_0302);
    assert_eq!(rt; place::eight_at(&octets, 1), 0x0908_0706_0504_0302);
    assert_eq!(rt; place::key_at(&octets, 1).0.as_slice(), &octets[1..17]);
    let mut items = Vec::with_capacity(rt.alloc(), 1)?;
    place::put_last(&mut items, 'x');
    assert_eq!(rt; items.as_slice(), ['x'].as_slice());
    Ok(())
}

// Three octets in pieces of two, with the second read to fail.
#[test]
fn a_source_in_memory(rt: HostRuntime) -> Result<(), Fail> {
    let mut source = MemorySource::of(rt.alloc(), &[1, 2, 3], 2, &[1])
        .ok()
        .ok_or("memory")?;
    let mut buffer = [0u8; 4];
    assert_eq!(rt; source.read(&mut buffer), Ok(2));
    assert_eq!(rt; buffer, [1, 2, 0, 0]);
    assert_eq!(rt; source.read(&mut buffer), Err(Failed));
    assert_eq!(rt; source.read(&mut buffer), Ok(1));
    assert_eq!(rt; buffer, [3, 2, 0, 0]);
    assert_eq!(rt; source.read(&mut buffer), Ok(0));
    Ok(())
}

// Room for three octets in pieces of two, with the second write to fail.
#[test]
fn an_output_in_memory(rt: HostRuntime) -> Result<(), Fail> {
    let mut out = MemoryOut::new(rt.alloc(), 3, 2, &[1]).ok().ok_or("memory")?;
    assert_eq!(rt; out.write(&[1, 2, 3]), Ok(2));
    assert_eq!(rt; out.write(&[3]), Err(Failed));
    assert_eq!(rt; out.write(&[3, 4]), Ok(1));
    assert_eq!(rt; out.write(&[4]), Err(Failed));
    assert_eq!(rt; out.write(&[]), Ok(0));
    assert_eq!(rt; out.written(), [1, 2, 3].as_slice());
    Ok(())
}

// What a source over a reader carries: the octets of the reader, up to its end.
#[test]
fn a_source_over_a_reader(rt: HostRuntime) {
    let text = b"capture".as_slice();
    let mut source = ReadSource::new(text);
    let mut buffer = [0u8; 5];
    assert_eq!(rt; source.read(&mut buffer), Ok(5));
    assert_eq!(rt; &buffer, b"captu");
    assert_eq!(rt; source.read(&mut buffer), Ok(2));
    assert_eq!(rt; &buffer, b"reptu");
    assert_eq!(rt; source.read(&mut buffer), Ok(0));
}

// What an output over a writer carries: the octets go to the writer, and a writer that takes none fails.
#[test]
fn an_output_over_a_writer(rt: HostRuntime) -> Result<(), Fail> {
    let mut octets = Vec::new(rt.alloc());
    let mut out = WriteOut::new(&mut octets);
    assert_eq!(rt; out.write(b"listing"), Ok(7));
    assert_eq!(rt; octets.as_slice(), b"listing".as_slice());
    let mut room = [0u8; 2];
    let mut full = WriteOut::new(room.as_mut_slice());
    assert_eq!(rt; full.write(b"abc"), Ok(2));
    assert_eq!(rt; full.write(b"c"), Err(Failed));
    Ok(())
}

fn counted_twice<L: Ledger>(blank: Blank)
    requires name { blank.name ≡ L.name }
    requires parts { blank.parts ≡ L.parts }
    requires some { 0 < L.parts }
{
    let mut steps = Steps::<L>::new(blank);
    tick_twice(&mut steps);
}

fn tick_twice<L: Ledger>(steps: &mut Steps<L>)
    ensures { steps.new ≡ steps.old + 2 }
{
    steps.tick();
    steps.tick();
}

#[test]
fn a_blank_begins_a_count() {
    counted_twice::<Brand>(Blank::new(1));
}
