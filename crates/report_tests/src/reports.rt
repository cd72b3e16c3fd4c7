mod errors;
mod networks;
mod pictures;
mod ranges;
mod timelines;

use crate::reports::networks::{PDOS, STRICT, assert_says, report, valve_figures, valve_page};
use cop_figures::{Failing, Load, Reason};
use cop_frame::Rate;
use cop_report::{Escaped, Identifier, Left, Millis, Percent, VERSION};
use cop_rta::Verdict;
use std::test::Fail;

/// Texts, and how they stand in a page.
const ESCAPED: &[(&str, &str)] = &[
    ("Valve 1", "Valve 1"),
    ("<b>", "&lt;b&gt;"),
    ("a & b", "a &amp; b"),
    ("\"it's\"", "&quot;it&#39;s&quot;"),
    ("Gr\u{fc}n", "Gr\u{fc}n"),
];

#[test]
fn no_text_is_markup(rt: HostRuntime) -> Result<(), Fail> {
    for case in ESCAPED {
        let (text, wanted) = *case;
        assert!(rt; format!(in rt.alloc(); "{}", Escaped(text))?.as_str() == wanted);
    }
    Ok(())
}

/// Ticks of 250 ns, the milliseconds that they are as a time, and as what is left.
const MILLIS: &[(u64, &str, &str)] = &[
    (0, "0.000", "0.000"),
    (1, "0.001", "0.000"),
    (2680, "0.670", "0.670"),
    (2681, "0.671", "0.670"),
    (40000004, "10000.001", "10000.001"),
];

#[test]
fn times_are_rounded_up_and_what_is_left_down(rt: HostRuntime) -> Result<(), Fail> {
    for case in MILLIS {
        let (ticks, time, left) = *case;
        assert!(rt; format!(in rt.alloc(); "{}", Millis(ticks))?.as_str() == time);
        assert!(rt; format!(in rt.alloc(); "{}", Left(ticks))?.as_str() == left);
    }
    Ok(())
}

#[test]
fn numbers_are_shown(rt: HostRuntime) -> Result<(), Fail> {
    assert!(rt; format!(in rt.alloc(); "{}", Percent(27000000))?.as_str() == "2.7 %");
    assert!(rt; format!(in rt.alloc(); "{}", Percent(1000000001))?.as_str() == "100.1 %");
    assert!(rt; format!(in rt.alloc(); "{}", Identifier(0x181))?.as_str() == "181h");
    Ok(())
}

/// In the worst case the PDO waits for the heartbeat (65 bits) and the EMCY (135 bits), and takes 135 bits itself: 335 bits
/// of 8 ticks are 2,680 ticks, its deadline.
#[test]
fn the_numbers_are_the_plans(rt: HostRuntime) -> Result<(), Fail> {
    let figures = valve_figures(rt.alloc(), PDOS)?;
    assert!(rt; figures.rate == Some(Rate::Kbit500) && figures.pdos.len() == 1);
    for times in figures.pdos.iter() {
        assert!(rt; times.pdo == 0 && times.stream.id == 0x181 && times.response == 2680);
    }
    Ok(())
}

/// The PDOs of which none can have the lowest priority among them, where that is the reason.
fn without_places(reason: &Reason) -> &[Failing] {
    match reason {
        Reason::Places { members } => members.as_slice(),
        _ => &[],
    }
}

/// At 250 kbit/s the same 335 bits take twice the time.
#[test]
fn the_refused_rates_are_the_plans(rt: HostRuntime) -> Result<(), Fail> {
    let figures = valve_figures(rt.alloc(), PDOS)?;
    let late = Verdict::Late {
        q: 0,
        response: 5360,
    };
    assert!(rt; figures.refused.len() == 1);
    for refused in figures.refused.iter() {
        let members = without_places(&refused.reason);
        assert!(rt; refused.rate == Rate::Kbit250 && members.len() == 1);
        for member in members {
            assert!(rt; member.verdict == late);
        }
    }
    Ok(())
}

/// Of the time, the PDO takes 135 bits in 10 ms, and the fixed frames 200 bits in 100 ms, in billionths.
const LOADS: &[(Rate, u64, u64)] = &[
    (Rate::Kbit250, 54000000, 8000000),
    (Rate::Kbit500, 27000000, 4000000),
];

/// Whether a load is the one that is wanted.
fn is_load(load: &Load, wanted: Option<&(Rate, u64, u64)>) -> bool {
    match wanted {
        Some((rate, pdos, fixed)) => {
            load.rate == *rate && load.pdos == *pdos && load.fixed == *fixed
        }
        None => false,
    }
}

#[test]
fn the_loads_are_those_of_the_tables(rt: HostRuntime) -> Result<(), Fail> {
    let figures = valve_figures(rt.alloc(), PDOS)?;
    assert!(rt; figures.loads.len() == LOADS.len());
    let mut wanted = LOADS.iter();
    for load in figures.loads.iter() {
        assert!(rt; is_load(load, wanted.next()));
    }
    Ok(())
}

/// What the page of the network says.
const SAID: &[&str] = &[
    "500&nbsp;kbit/s",
    "<b class=\"nothing\">0.000 ms, 0.0 %</b>of its deadline left at the tightest: TPDO 1 of Valve (node 5)",
    "<h3>250 kbit/s fails <small>at a load of 6.2 %</small></h3>",
    "At 250 kbit/s TPDO 1 of Valve (node 5) needs 1.340 ms, its deadline is 0.670 ms.",
    "a&lt;b&gt;&amp;&quot;c&quot;.csv: CANopen plan</title>",
    "<dd>100 m at most",
    "<dd>2 May &amp; 3</dd>",
    "<td class=\"n\">117</td><td><code>abababab",
    "Use <code>--margin</code>",
    "<li>TPDO 1 sends <a href=\"#pdo-181h\">181h</a></li>",
    "<details><summary>Set &lt;value&gt;, 2001h sub 0</summary>",
    "<li><code>2001h sub 0</code> 2001h sub 0 <small>32 bits, 32 to 63</small></li>",
    "<p>TPDO 1 is 181h, COB-ID 40000181h, sent on events of the device profile (type 255).</p>",
    "Response of <b>0.670</b>",
    "<li>one from below <b>0.130</b></li><li>085h ×1 <b>0.270</b></li><li>its transfer <b>0.270</b></li>",
    "<th scope=\"row\">085h</th><td>EMCY of Valve (node 5)</td><td class=\"n\">8</td><td class=\"n\">100.000</td><td class=\"n\">0.000</td></tr>",
    "<li>switched off: TPDO 2</li>",
    "<li>heartbeat every 100 ms</li>",
    "a&lt;b&gt;&amp;&quot;c&quot;.csv",
    "no frame is disturbed",
    "by identifier, its PDOs pass this test, too</summary>",
];

#[test]
fn the_page_says_the_plan(rt: HostRuntime) -> Result<(), Fail> {
    let page = valve_page(rt.alloc(), PDOS, None)?;
    assert_says(&rt, &page, SAID);
    assert!(rt; !page.contains("a<b>"));
    assert!(rt; page.matches("<script").count() == 2);
    let program = format!(in rt.alloc(); "<dd>canplan {VERSION}</dd>")?;
    assert!(rt; page.contains(&program));
    Ok(())
}

/// What the page says if no rate passes. At 500 kbit/s the PDO needs 670 us of 400.
const REFUSED: &[&str] = &[
    "<span class=\"bad\">no rate passes</span>",
    "<b class=\"missed\">0.270 ms late</b>the nearest miss at 500 kbit/s: TPDO 1 of Valve (node 5)",
    "<h2>Why no rate passes</h2>",
    "At 500 kbit/s TPDO 1 of Valve (node 5) needs 0.670 ms, its deadline is 0.400 ms.",
    "<tr><th scope=\"row\">TPDO 1 of Valve (node 5)</th><td class=\"n\">8</td><td class=\"n\">10.000</td><td class=\"n\">0.000</td>\
<td class=\"n\">0.400</td><td class=\"n\">0.670</td>",
    "<td class=\"n missed\">0.270</td></tr>",
];

#[test]
fn the_page_says_that_no_rate_passes(rt: HostRuntime) -> Result<(), Fail> {
    let (figures, page) = report(rt.alloc(), STRICT, None)?;
    assert!(rt; figures.rate.is_none() && figures.pdos.is_empty());
    assert!(rt; figures.refused.len() == 2);
    assert_says(&rt, &page, REFUSED);
    assert!(rt; page.find("<h3>500 kbit/s fails") < page.find("<h3>250 kbit/s fails"));
    Ok(())
}
