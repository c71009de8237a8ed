// A client of the library: some calls on network W of 01, and on no bytes at all, over tables of its own. What it prints is in the file stdout.
// The handle that prints and the file that is read have nothing to do with one another, so they stay two parameters.
#![tactic(auto)]

use cogsplice::{Refusal, Side};

// A word and two numbers on a line, or the refusal.
fn say(rt: &impl Print, word: &str, answer: Result<(usize, usize), Refusal>) {
    let _ = match answer {
        Ok((a, b)) => println!(rt; "{word} {a} {b}"),
        Err(refusal) => {
            println!(rt;
                "refused {} {}",
                refusal.number(),
                refusal.link().unwrap_or(0)
            )
        }
    };
}

fn try_check(rt: &impl Print, file: &[u8]) {
    let answer = cogsplice::check(file);
    say(
        rt,
        "members and links",
        answer.map(|extent| (extent.order, extent.size)),
    );
}

// Who vouches for member 4.
fn try_row(rt: &impl Print, file: &[u8]) {
    let mut starts = [0u16; 7];
    let mut rows = [0u16; 8];
    let mut in_starts = [0u16; 7];
    let mut in_rows = [0u16; 8];
    let _ = cogsplice::index(file, &mut starts, &mut rows, &mut in_starts, &mut in_rows);
    let row = cogsplice::row(Side::Target, 4, &starts, &rows, &in_starts, &in_rows);
    for (place, voucher) in row.iter().enumerate() {
        say(rt, "voucher", Ok((place, usize::from(*voucher))));
    }
}

fn try_finding(rt: &impl Print, file: &[u8]) {
    let everyone = [1u8; 6];
    let mut s = [0u8; 6];
    let mut t = [0u8; 6];
    let mut work = [0u16; 54];
    let core = cogsplice::core(file, &everyone, &everyone, 1, 2, &mut s, &mut t, &mut work);
    say(
        rt,
        "[1,2]-core",
        core.map(|totals| (totals.sources, totals.targets)),
    );
    let answer = cogsplice::level(file, &everyone, &everyone, 1, &mut work);
    say(rt, "level", answer.map(|level| (1, level)));
    let finding = cogsplice::finding(file, &everyone, &everyone, &mut s, &mut t, &mut work);
    say(rt, "finding", finding.map(|ring| (ring.x, ring.y)));
}

// How many layers there are, and which one the last link is in.
fn try_layers(rt: &impl Print, file: &[u8]) {
    let everyone = [1u8; 6];
    let mut layers = [0u16; 8];
    let mut work = [0u16; 54];
    let answer = cogsplice::layers(file, &everyone, &everyone, &mut layers, &mut work);
    say(
        rt,
        "layers, last link",
        answer.map(|number| (number, usize::from(layers[7]))),
    );
}

// How many the harmonic finder finds.
fn try_harmonic(rt: &impl Print, file: &[u8]) {
    let mut s = [0u8; 6];
    let mut t = [0u8; 6];
    let mut work = [0u16; 54];
    let pair = cogsplice::harmonic(file, &mut s, &mut t, &mut work);
    say(
        rt,
        "harmonic",
        pair.map(|totals| (totals.sources, totals.targets)),
    );
}

// A stored file, whose links stand in any order, in order.
fn try_order(rt: &impl Print, file: &[u8]) {
    let mut out = [0u8; 17];
    let answer = cogsplice::order(file, &mut out);
    say(rt, "links in order", answer.map(|size| (size, 0)));
    try_check(rt, &out);
}

fn main(rt: HostRuntime) {
    let w =
        b"VCH\x01\x00\x06\x00\x08\x00\x00\x00\x03\x00\x00\x00\x04\x00\x01\x00\x03\x00\x01\x00\x04\x00\x02\x00\x03\x00\x02\x00\x04\x00\x04\x00\x05\x00\x05\x00\x05\x00";
    try_check(&rt, w);
    try_check(&rt, b"VCH");
    try_row(&rt, w);
    try_finding(&rt, w);
    try_layers(&rt, w);
    try_harmonic(&rt, w);
    try_check(&rt, b"");
    try_finding(&rt, b"");
    try_layers(&rt, b"");
    try_harmonic(&rt, b"");
    let stored = b"VCH\x01\x00\x02\x00\x02\x00\x01\x00\x00\x00\x00\x00\x01\x00";
    try_check(&rt, stored);
    try_order(&rt, stored);
}
