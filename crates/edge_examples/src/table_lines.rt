// The table calls. A line has the refusal's number, the pair, and all slots; each slot holds -2.5 before the call.

use crate::printing::{Shown, Slots};
use floats::Function::{self, D, V};
use std::io;

// A line for a table.
fn line(
    rt: &HostRuntime,
    text: &str,
    function: Function,
    v: f64,
    x: f64,
    slots: &mut [f64],
) -> io::Result<()> {
    let answer = tables::table(function, v, x, slots);
    println!(rt; "{text}: {}{}", Shown(answer), Slots(slots))
}

// The same without the slots, where they are many. Apart from `line`: one function for both would take a bool.
fn answer_line(
    rt: &HostRuntime,
    text: &str,
    function: Function,
    v: f64,
    x: f64,
    slots: &mut [f64],
) -> io::Result<()> {
    println!(rt; "{text}: {}", Shown(tables::table(function, v, x, slots)))
}

// P5 to P10, and P12's order.
pub fn examples(rt: &HostRuntime) -> io::Result<()> {
    line(rt, "P5 D 0 0, 5 slots", D, 0.0, 0.0, &mut [-2.5; 5])?;
    line(rt, "P5 D 0 0, 6 slots", D, 0.0, 0.0, &mut [-2.5; 6])?;
    line(rt, "P6 D 1 0", D, 1.0, 0.0, &mut [-2.5; 8])?;
    line(rt, "P7 D 2 0", D, 2.0, 0.0, &mut [-2.5; 10])?;
    line(rt, "P8 V -1 0", V, -1.0, 0.0, &mut [-2.5; 8])?;
    answer_line(rt, "P9 D 1000 0", D, 1000.0, 0.0, &mut [-2.5; 2004])?;
    answer_line(
        rt,
        "P10 D 999.5 0, 2003 slots",
        D,
        999.5,
        0.0,
        &mut [-2.5; 2003],
    )?;
    answer_line(
        rt,
        "P10 D 999.5 0, 2004 slots",
        D,
        999.5,
        0.0,
        &mut [-2.5; 2004],
    )?;
    line(
        rt,
        "P12 D 1-2^-53 0.5",
        D,
        0.9999999999999999,
        0.5,
        &mut [-2.5; 6],
    )
}

// The derivatives' place, the cut below 0, V at whole orders, and V's value 2.
pub fn slips(rt: &HostRuntime) -> io::Result<()> {
    line(rt, "D 0.25 1.5", D, 0.25, 1.5, &mut [-2.5; 7])?;
    line(rt, "D -1.5 1", D, -1.5, 1.0, &mut [-2.5; 8])?;
    line(rt, "V -1.5 -1", V, -1.5, -1.0, &mut [-2.5; 8])?;
    line(rt, "V 3 1", V, 3.0, 1.0, &mut [-2.5; 12])?;
    line(rt, "V 3 -1", V, 3.0, -1.0, &mut [-2.5; 12])?;
    line(
        rt,
        "V -2^-60 1",
        V,
        -8.673617379884035e-19,
        1.0,
        &mut [-2.5; 6],
    )
}
