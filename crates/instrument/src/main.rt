// instrument: a sector instrument from source slit to collector slit as maps of order 3. It prints the formulas
// of its elements, the aberrations of their composition, what the inverse does to them, and what
// happens with a damaged table.
#![tactic(auto)]

mod composing;
mod elements;
mod print;

use composing::Bench;
use elements::Element;
use optics::formula::identity;
use optics::setting;
use optics::words::{exchange, is_zero};
use std::io;

fn main(rt: HostRuntime) -> io::Result<()> {
    let mut table = [0u16; 240];
    let mut plain = [0u32; 285];
    let mut whole = [0u32; 285];
    println!(rt;
        "A sector instrument from source slit to collector slit, as maps of order 3.
x, a: position and slope in the bending plane; y, b: across it; d: relative
deviation of the energy. Lengths are in units of the magnet's radius.

Coefficients count modulo 65,521. One is shown as a fraction where a numerator
up to 500 and a denominator up to 30 give its residue, otherwise as the residue.

The elements. A coordinate without a formula passes unchanged."
    )?;
    print::answer(&rt, kernel::build_table(setting(), &mut table))?;
    Element::Drift.show(&rt)?;
    Element::Face.show(&rt)?;
    Element::Rotation.show(&rt)?;
    Element::Corrector.show(&rt)?;
    Element::Filter.show(&rt)?;
    let bench = Bench {
        rt: &rt,
        table: &table,
    };
    bench.chain(
        &mut plain,
        &[
            Element::Drift,
            Element::Face,
            Element::Rotation,
            Element::FaceUndone,
            Element::Drift,
            Element::Drift,
            Element::Filter,
            Element::Drift,
            Element::Drift,
        ],
    )?;
    bench.chain(
        &mut whole,
        &[
            Element::Drift,
            Element::Face,
            Element::Rotation,
            Element::FaceUndone,
            Element::Drift,
            Element::Corrector,
            Element::Drift,
            Element::Filter,
            Element::Drift,
            Element::Drift,
        ],
    )?;
    aberrations(&bench, &plain, &whole)?;
    inverse(&bench, &whole)?;
    damage(&rt, &mut table, &whole)
}

fn aberrations<R: Print>(bench: &Bench<R>, plain: &[u32], whole: &[u32]) -> io::Result<()> {
    let rt = bench.rt;
    println!(rt;
        "
The instrument: drift, magnet, drift, corrector, drift, energy filter, drift, drift.

x at the collector slit, without the corrector"
    )?;
    bench.component(plain, 0)?;
    println!(rt; "x at the collector slit, with the corrector; gone: the terms that it cancels")?;
    bench.component(whole, 0)?;
    bench.missing(plain, whole)?;
    println!(rt; "a at the collector slit, with the corrector")?;
    bench.component(whole, 1)?;
    print::counts(rt, whole)
}

// The inverse composed with the instrument on either side, word by word beside the identity map.
fn inverse<R: Print>(bench: &Bench<R>, whole: &[u32]) -> io::Result<()> {
    let mut back = [0u32; 285];
    let mut nothing = [0u32; 285];
    identity(bench.table, &mut nothing);
    bench.undo(whole, &mut back)?;
    let after = bench.composes_to(&back, whole, &nothing)?;
    print::verdict(
        bench.rt,
        "\nThe inverse after the instrument is the identity map, in all 285 words: ",
        after,
    )?;
    let before = bench.composes_to(whole, &back, &nothing)?;
    print::verdict(
        bench.rt,
        "The instrument after the inverse is the identity map, in all 285 words: ",
        before,
    )
}

// D1 has the addresses of x and a in words 113 and 116: without the check, x and a would trade places.
fn damage(rt: &impl Print, table: &mut [u16], whole: &[u32]) -> io::Result<()> {
    let mut result = [0u32; 285];
    exchange(table, 113, 116);
    println!(rt;
        "\nThe table with the addresses of x and a exchanged, its words 113 and 116, in D1:"
    )?;
    let damaged = Bench { rt, table };
    damaged.compose(whole, whole, &mut result)?;
    print::verdict(
        rt,
        "The result is as empty as before the call: ",
        is_zero(&result),
    )
}
