// Lists each image of data/, so that the gate sees every answer of the listing, at its limits too.
#![tactic(auto)]

use std::fs::File;
use std::io;

// The images, in the order in which they are listed.
const NAMES: [&str; 28] = [
    "empty",
    "paper",
    "full",
    "long",
    "longest",
    "about_16384",
    "ragged",
    "kind",
    "kind_of_a_piece",
    "length",
    "length_of_a_mark",
    "index",
    "mark_words",
    "padding",
    "padding_of_a_gap",
    "check",
    "check_of_65535",
    "kind_and_length",
    "length_and_index",
    "index_and_padding",
    "padding_and_check",
    "cut_off",
    "cut_off_damaged",
    "cut_off_longest",
    "out_of_place",
    "mark_for_a_piece",
    "mark_for_a_piece_damaged",
    "piece_of_another",
];

// A file that doesn't open is told of on standard error, and the next comes.
fn list_named(rt: &HostRuntime, name: &str) -> io::Result<()> {
    println!(rt; "{name}")?;
    match File::open(rt, name) {
        Ok(mut file) => lister::list_file(&mut file, &mut rt.stdout()),
        Err(e) => eprintln!(rt; "{name}: {e}"),
    }
}

fn main(rt: HostRuntime) -> io::Result<()> {
    for name in NAMES {
        list_named(&rt, name)?;
    }
    Ok(())
}
