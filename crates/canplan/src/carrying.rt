//! How a request is carried out.

use crate::faults::tell;
use cop_answers::{Inputs, explained_line, page_of_rules, words_of_rule};
use cop_calls::{
    Drawn, Wanted, boot, check, export, judge, plan, room, run, test, test_as_is, watch_bus,
    write_report,
};
use cop_engine::{Fault, status, test_status};
use cop_files::{Failure, Form, print};
use cop_folders::{check_free_out, compare_plans, start_at_bus, start_tables};
use cop_makers::carry_tidy;
use cop_orders::{InitOrder, Order, Request};
use cop_serial::{
    boot_machine, carry_transfer, command_nodes, find_nodes, scan_bus, verify_machine, watch_port,
};
use std::io::Write;

/// Says that a number has no rule, which is a usage fault, and which have one.
fn refuse_number(rt: &HostRuntime) -> Result<u8, Failure> {
    let fault = Fault::Usage;
    tell(rt, &fault);
    let explained = explained_line(rt.alloc())?;
    let line = format!(in rt.alloc(); "canplan: explained are {explained}\n")?;
    let _ = rt.stderr().write_all(line.as_bytes());
    Ok(status(&fault))
}

/// Prints what the rule of a number says, or what all say.
fn explain(rt: &HostRuntime, number: Option<u8>) -> Result<u8, Failure> {
    let alloc = rt.alloc();
    let words = match number {
        Some(number) => words_of_rule(alloc, number)?,
        None => page_of_rules(alloc)?.into_bytes(),
    };
    if words.is_empty() {
        return refuse_number(rt);
    }
    print(rt, &words)?;
    Ok(0)
}

/// The form of a test. A line for each stream is much, so at a terminal too it is said only if it is asked for.
fn test_form(request: Request<'_>, form: Form) -> Form {
    if request.explain || form == Form::Document {
        form
    } else {
        Form::Lines
    }
}

/// Makes tables to start from: for each file of a folder, or for each node on a bus.
fn init(rt: &HostRuntime, order: InitOrder<'_>, form: Form) -> Result<u8, Failure> {
    let Some(scan) = order.scan else {
        return start_tables(rt, order);
    };
    check_free_out(rt, order)?;
    let nodes = find_nodes(rt, scan, form)?;
    start_at_bus(rt, order, &nodes)
}

/// Carries a request out in a form, and gives its status. What it reads is kept.
pub fn carry_out(
    rt: &HostRuntime,
    request: Request<'_>,
    form: Form,
    inputs: &mut Inputs,
) -> Result<u8, Failure> {
    match request.order {
        Order::Test { rate, file, strict } => {
            let all_pass = test(rt, rate, file, test_form(request, form), inputs)?;
            Ok(test_status(all_pass || !strict))
        }
        Order::Plan(order) => plan(rt, order, form, inputs),
        Order::AsIs(network) => test_as_is(rt, network, form, inputs),
        Order::Room(order) => room(rt, order, form, inputs),
        Order::Check {
            network,
            refusals,
            strict,
        } => check(rt, network, refusals, Wanted { form, strict }, inputs),
        Order::Boot { seed, network } => boot(rt, seed, network, form, inputs),
        Order::Machine(order) => boot_machine(rt, order, form, inputs),
        Order::Verify(order) => verify_machine(rt, order, form, inputs),
        Order::Nmt(order) => command_nodes(rt, order, form),
        Order::Scan(order) => scan_bus(rt, order, form),
        Order::Transfer(order) => carry_transfer(rt, order, form),
        Order::Judge { network, trace } => judge(rt, network, trace, form, inputs),
        Order::Run {
            seed,
            until,
            network,
            trace,
        } => run(rt, Drawn { seed, until }, network, trace, inputs),
        Order::Report {
            network,
            shown,
            out,
        } => write_report(rt, network, shown, out, inputs),
        Order::Export {
            format,
            network,
            out,
        } => export(rt, format, network, out, inputs),
        Order::Tidy(order) => carry_tidy(rt, order, form, inputs),
        Order::Init(order) => init(rt, order, form),
        Order::Diff(order) => compare_plans(rt, order, form),
        Order::Watch { log, csv } => watch_bus(rt, log, csv, form, inputs),
        Order::Listen(order) => watch_port(rt, order, form, inputs),
        Order::Explain { number } => explain(rt, number),
    }
}
