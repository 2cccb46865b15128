//! Finds a name among others many times, so that what a search costs can be counted:
//! tree|map|search alike|apart COUNT OCTETS PLACE SEARCHES.

#![tactic(auto)]

use anyhow::{Result, bail};
use demux::{Demux, WordName};
use kit_base::{Name, NoMemory};
use kit_shared::{Shared, SharedNames};
use std::alloc::Global;
use std::collections::BTreeMap;
use std::env;

/// By what names are found.
#[derive(Clone, Copy)]
enum By {
    /// A tree over the lengths and the words of names.
    Tree,
    /// An ordered map from octets to places.
    Map,
    /// One name after another.
    Search,
}

/// Where names differ.
#[derive(Clone, Copy, PartialEq, Eq)]
enum Shape {
    /// In their last four octets.
    Alike,
    /// In their first four octets.
    Apart,
}

fn by_of(word: &str) -> Option<By> {
    match word {
        "tree" => Some(By::Tree),
        "map" => Some(By::Map),
        "search" => Some(By::Search),
        _ => None,
    }
}

fn shape_of(word: &str) -> Option<Shape> {
    match word {
        "alike" => Some(Shape::Alike),
        "apart" => Some(Shape::Apart),
        _ => None,
    }
}

/// A name of so many octets, and of four at least.
fn name_of(alloc: Global, shape: Shape, number: u32, octets: u32) -> Result<Name, NoMemory> {
    let mut name = Name::new(alloc);
    let word = number.to_be_bytes();
    if shape == Shape::Apart {
        name.append(&word)?;
    }
    for _ in 4..octets {
        name.push(97)?;
    }
    if shape == Shape::Alike {
        name.append(&word)?;
    }
    Ok(name)
}

fn names_of(alloc: Global, shape: Shape, count: u32, octets: u32) -> Result<SharedNames, NoMemory> {
    let mut names = SharedNames::new(alloc);
    for number in 0..count {
        names.push(Shared::new(alloc, name_of(alloc, shape, number, octets)?)?)?;
    }
    Ok(names)
}

fn by_tree(
    alloc: Global,
    names: SharedNames,
    sought: &[u8],
    searches: u32,
) -> Result<u64, NoMemory> {
    if names.len() > 4_294_967_295 {
        return Err(NoMemory);
    }
    let demux = Demux::new(alloc, names)?;
    let mut sum = 0u64;
    for _ in 0..searches {
        if let Some(place) = demux.pick(&mut WordName::new(sought)) {
            sum = sum.wrapping_add(u64::from(place));
        }
    }
    Ok(sum)
}

fn by_map(
    alloc: Global,
    names: &SharedNames,
    sought: &[u8],
    searches: u32,
) -> Result<u64, NoMemory> {
    let mut map = BTreeMap::new(alloc);
    for (place, name) in names.as_slice().iter().enumerate() {
        map.insert(Vec::from_slice(alloc, name.as_slice())?, place as u64)?;
    }
    let mut sum = 0u64;
    for _ in 0..searches {
        if let Some(place) = map.get(sought) {
            sum = sum.wrapping_add(*place);
        }
    }
    Ok(sum)
}

fn by_search(names: &SharedNames, sought: &[u8], searches: u32) -> u64 {
    let mut sum = 0u64;
    for _ in 0..searches {
        for (place, name) in names.as_slice().iter().enumerate() {
            if name.as_slice() == sought {
                sum = sum.wrapping_add(place as u64);
                break;
            }
        }
    }
    sum
}

/// What is asked: by what, how names differ, how many there are, how long they are, which is sought, and how often.
#[derive(Clone, Copy, Drop)]
struct Task {
    by: By,
    shape: Shape,
    count: u32,
    octets: u32,
    place: u32,
    searches: u32,
}

/// The sum of the places that were found.
fn run(alloc: Global, task: &Task) -> Result<u64, NoMemory> {
    let names = names_of(alloc, task.shape, task.count, task.octets)?;
    let sought = name_of(alloc, task.shape, task.place, task.octets)?;
    match task.by {
        By::Tree => by_tree(alloc, names, sought.as_slice(), task.searches),
        By::Map => by_map(alloc, &names, sought.as_slice(), task.searches),
        By::Search => Ok(by_search(&names, sought.as_slice(), task.searches)),
    }
}

fn number(word: Option<String>) -> Option<u32> {
    match word {
        Some(word) => word.as_str().parse::<u32>().ok(),
        None => None,
    }
}

fn main(rt: HostRuntime) -> Result<()> {
    let mut words = env::args(&rt)?.skip(1);
    let by = words.next().and_then(|word| by_of(word.as_str()));
    let shape = words.next().and_then(|word| shape_of(word.as_str()));
    let count = number(words.next());
    let octets = number(words.next());
    let place = number(words.next());
    let searches = number(words.next());
    match (by, shape, count, octets, place, searches) {
        (Some(by), Some(shape), Some(count), Some(octets), Some(place), Some(searches)) => {
            let task = Task {
                by,
                shape,
                count,
                octets,
                place,
                searches,
            };
            match run(rt.alloc(), &task) {
                Ok(sum) => println!(rt; "{sum}")?,
                Err(NoMemory) => bail!("no memory"),
            }
            Ok(())
        }
        _ => bail!("usage: bench_names tree|map|search alike|apart COUNT OCTETS PLACE SEARCHES"),
    }
}
