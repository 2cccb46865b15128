use super::*;
use kit_base::{Name, NoMemory};
use kit_shared::{Shared, SharedNames};
use std::test::Fail;

/// Names that differ in their last four octets alone, and after them the first once more.
fn alike(rt: &HostRuntime, many: u32) -> Result<SharedNames, NoMemory> {
    let mut names = SharedNames::new(rt.alloc());
    for number in 0..many {
        let mut name = Name::from_slice(rt.alloc(), b"operation")?;
        name.append(&number.to_be_bytes())?;
        names.push(Shared::new(rt.alloc(), name)?)?;
    }
    let mut again = Name::from_slice(rt.alloc(), b"operation")?;
    again.append(&[0, 0, 0, 0])?;
    names.push(Shared::new(rt.alloc(), again)?)?;
    Ok(names)
}

/// Whether a name is found at a place by so many reads.
fn finds(demux: &Demux, octets: &[u8], place: Option<u32>, reads: u64) -> bool {
    let mut name = WordName::new(octets);
    demux.pick(&mut name) == place && name.reads() == reads
}

/// How many of the names are found at their own places.
fn found(demux: &Demux, names: &SharedNames) -> u32 {
    let mut many = 0u32;
    for name in names.as_slice() {
        if finds(demux, name.as_slice(), Some(many), 4) {
            many = many.saturating_add(1);
        }
    }
    many
}

#[test]
fn each_of_16640_names_is_found_by_one_read_a_word(rt: HostRuntime) -> Result<(), Fail> {
    let names = alike(&rt, 16_640)?;
    assert!(rt; names.len() == 16_641);
    let given = alike(&rt, 16_640)?;
    assert!(rt; given.len() == 16_641);
    let demux = Demux::new(rt.alloc(), given)?;
    assert_eq!(rt; found(&demux, &names), 16_640);
    assert!(rt; finds(&demux, b"operation\0\0\0\0", Some(0), 4));
    assert!(rt; finds(&demux, b"operation\0\0\0", None, 0));
    Ok(())
}

/// The names of operations that begin alike.
fn gets(rt: &HostRuntime) -> Result<SharedNames, NoMemory> {
    let mut names = SharedNames::new(rt.alloc());
    names.push(Shared::new(rt.alloc(), Name::from_slice(rt.alloc(), b"get")?)?)?;
    names.push(Shared::new(rt.alloc(), Name::from_slice(rt.alloc(), b"getx")?)?)?;
    names.push(Shared::new(rt.alloc(), Name::from_slice(rt.alloc(), b"get_x")?)?)?;
    names.push(Shared::new(rt.alloc(), Name::from_slice(rt.alloc(), b"getxy")?)?)?;
    Ok(names)
}

#[test]
fn names_that_begin_alike_are_found_by_two_reads_at_most(rt: HostRuntime) -> Result<(), Fail> {
    let names = gets(&rt)?;
    assert!(rt; names.len() == 4);
    let demux = Demux::new(rt.alloc(), names)?;
    assert!(rt; finds(&demux, b"get", Some(0), 1));
    assert!(rt; finds(&demux, b"getx", Some(1), 1));
    assert!(rt; finds(&demux, b"get_x", Some(2), 2));
    assert!(rt; finds(&demux, b"getxy", Some(3), 2));
    assert!(rt; finds(&demux, b"ge", None, 0));
    assert!(rt; finds(&demux, b"getxyz", None, 0));
    Ok(())
}
