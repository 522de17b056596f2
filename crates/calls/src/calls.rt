// The calls: a function for each reads the form of its input, makes the call and prints what it gives and leaves.
// Word 0 is the call; behind it stand the call's numbers, then its slices. Each slice that is lent is a part, of the length given, of an array that
// has room for any input. Each function takes what prints and what is read, as two values: one of both would only be taken apart.
ghost use Rattle.std.specs.Prelude.{◌≡◌, false};
ghost use Rattle.definitions.specs.Answers.{given_or};
ghost use Rattle.clearing.specs.Given.{nothing_cleared};
ghost use Rattle.orders.specs.Answer.{written_of, counts_of};

use checking::check;
use clearing::{Cleared, clear};
use definitions::{Counts, LentBook, Order, Parts, Reason};
use feasible::Sent;
use judging::judge_bid;
use opening::open;
use orders::{Asked, Plan, Position, Written, write_column_plan, write_plan};
use printing::{print_number, print_numbers, print_verdict};
use runner::run;
use sealing::{seal, seal_columns};
use std::io;
use views::view;
use words::{
    FromWord, Words, copy, number, room, signed, slice_length, slices, slices_and_bytes, word,
};

// Why a call is not made or not printed: the input is that of no call, or a write failed.
#[derive(Drop)]
pub enum Failure {
    Unreadable,
    Write(io::Error),
}

impl From<io::Error> for Failure {
    fn from(error: io::Error) -> Failure {
        Failure::Write(error)
    }
}

// Which call is made.
#[derive(Clone, Copy)]
pub enum Call {
    Bid,
    Seal,
    Open,
    Clear,
    Run,
    Ask,
    Total,
    Write,
    View,
    Check,
    SealColumns,
    AskColumns,
    WriteColumns,
}

impl TryFrom<u32> for Call {
    type Error = Failure;

    fn try_from(word: u32) -> Result<Call, Failure> {
        match word {
            1 => Ok(Call::Bid),
            2 => Ok(Call::Seal),
            3 => Ok(Call::Open),
            4 => Ok(Call::Clear),
            5 => Ok(Call::Run),
            6 => Ok(Call::Ask),
            7 => Ok(Call::Total),
            8 => Ok(Call::Write),
            9 => Ok(Call::View),
            10 => Ok(Call::Check),
            11 => Ok(Call::SealColumns),
            12 => Ok(Call::AskColumns),
            13 => Ok(Call::WriteColumns),
            _ => Err(Failure::Unreadable),
        }
    }
}

impl Call {
    pub fn make(self, rt: &impl Print, input: &[u8]) -> Result<(), Failure> {
        match self {
            Call::Bid => call_bid(rt, input),
            Call::Seal => call_seal(rt, input, seal),
            Call::Open => call_open(rt, input),
            Call::Clear => call_clear(rt, input),
            Call::Run => call_run(rt, input),
            Call::Ask => call_ask(rt, input, Position::ask),
            Call::Total => call_total(rt, input),
            Call::Write => call_write(rt, input, write_plan),
            Call::View => call_view(rt, input),
            Call::Check => call_check(rt, input),
            Call::SealColumns => call_seal(rt, input, seal_columns),
            Call::AskColumns => call_ask(rt, input, Position::ask_columns),
            Call::WriteColumns => call_write(rt, input, write_column_plan),
        }
    }
}

// ---- What a call gives where it refuses: its counts and the welfare are then 0, and a check says no

fn count_given(count: Result<usize, Reason>) -> usize
    ensures { result ≡ given_or 0 count }
{
    count.unwrap_or(0)
}

fn cleared_given(cleared: Result<Cleared, Reason>) -> Cleared
    ensures { result ≡ given_or nothing_cleared cleared }
{
    cleared.unwrap_or(Cleared {
        orders: 0,
        welfare: 0,
        sales_welfare: 0,
    })
}

fn written_given(written: Result<Written, Reason>) -> Written
    ensures { written_of result ≡ counts_of written }
{
    written.unwrap_or_default()
}

fn yes_given(checked: Result<bool, Reason>) -> bool
    ensures { result ≡ given_or false checked }
{
    checked.unwrap_or(false)
}

// ---- What is lent

// Lends as much of a room as the slice at a position fills, with the slice's entries in it.
fn lend<'a, T: FromWord>(input: &[u8], at: usize, room: &'a mut [T; Words::ROOM]) -> &'a mut [T] {
    let places = &mut room[..slice_length(input, at)];
    copy(input, at, places);
    places
}

// Room for the tables of any book.
#[derive(Drop)]
struct Tables {
    bids: [i32; Words::ROOM],
    capacities: [i32; Words::ROOM],
}

impl Tables {
    fn new() -> Tables {
        Tables {
            bids: room(),
            capacities: room(),
        }
    }

    // Lends the book of n and m, which are words 1 and 2, with the tables at two positions.
    fn lend(&mut self, input: &[u8], bids: usize, capacities: usize) -> LentBook<'_> {
        LentBook {
            n: number(input, 1),
            m: number(input, 2),
            bids: lend(input, bids, &mut self.bids),
            capacities: lend(input, capacities, &mut self.capacities),
        }
    }
}

// ---- A bid alone: m and the bid's numbers

fn call_bid(rt: &impl Print, input: &[u8]) -> Result<(), Failure> {
    let [] = slices::<0>(input, 6).ok_or(Failure::Unreadable)?;
    let m = number(input, 1);
    let verdict = judge_bid(
        m,
        signed(input, 2),
        signed(input, 3),
        signed(input, 4),
        signed(input, 5),
    );
    Ok(print_verdict(rt, verdict)?)
}

// ---- Calls on a book: n and m; bids, capacities, sheet

// Makes a call on the book and the sheet lent, which prints what it gives, and prints the sheet that it leaves.
fn call_on_book<F>(rt: &impl Print, input: &[u8], call: F) -> Result<(), Failure>
where
    F: FnOnce(&LentBook, &mut [u32]) -> io::Result<()>,
    requires { F.IsAlwaysCallable call }
{
    let [bids, capacities, sheet] = slices::<3>(input, 3).ok_or(Failure::Unreadable)?;
    let mut tables = Tables::new();
    let book = tables.lend(input, bids, capacities);
    let mut cells = room();
    let sheet = lend(input, sheet, &mut cells);
    call(&book, sheet)?;
    Ok(print_numbers(rt, b"sheet", sheet)?)
}

// Seals by rows or by columns, as the function given does.
fn call_seal<F>(rt: &impl Print, input: &[u8], seal: F) -> Result<(), Failure>
where
    F: FnOnce(&LentBook, &mut [u32]) -> Result<Counts, Reason>,
    requires { F.IsAlwaysCallable seal }
{
    call_on_book(rt, input, |book, sheet| {
        print_verdict(rt, seal(book, sheet).map(|_| ()))
    })
}

fn call_clear(rt: &impl Print, input: &[u8]) -> Result<(), Failure> {
    call_on_book(rt, input, |book, sheet| {
        let cleared = clear(book, sheet);
        let given = cleared_given(cleared);
        print_verdict(rt, cleared.map(|_| ()))?;
        print_number(rt, b"orders", given.orders)?;
        print_number(rt, b"welfare", given.welfare)?;
        print_number(rt, b"sales", given.sales_welfare)
    })
}

// The verdict and the count of orders.
fn print_counted(rt: &impl Print, orders: Result<usize, Reason>) -> io::Result<()> {
    print_verdict(rt, orders.map(|_| ()))?;
    print_number(rt, b"orders", count_given(orders))
}

// ---- Opening: n and m; sheet, results
// Opening and running lend two slices each, of different types, and print different things: only the lending is one function.

fn call_open(rt: &impl Print, input: &[u8]) -> Result<(), Failure> {
    let [sheet, results] = slices::<2>(input, 3).ok_or(Failure::Unreadable)?;
    let mut cells = room();
    let sheet = lend(input, sheet, &mut cells);
    let mut numbers = room();
    let results = lend(input, results, &mut numbers);
    print_verdict(rt, open(number(input, 1), number(input, 2), sheet, results))?;
    Ok(print_numbers(rt, b"results", results)?)
}

// ---- Running: sheet, bytes

fn call_run(rt: &impl Print, input: &[u8]) -> Result<(), Failure> {
    let ([sheet], plan) = slices_and_bytes::<1>(input, 1).ok_or(Failure::Unreadable)?;
    let mut cells = room();
    let sheet = lend(input, sheet, &mut cells);
    let mut bytes = room();
    let plan = lend(input, plan, &mut bytes);
    print_counted(rt, run(sheet, plan))?;
    Ok(print_numbers(rt, b"sheet", sheet)?)
}

// ---- Asking the plan, by rows or by columns: n, m and a position

fn call_ask<F>(rt: &impl Print, input: &[u8], ask: F) -> Result<(), Failure>
where
    F: FnOnce(Position) -> Result<Asked, Reason>,
    requires { F.IsAlwaysCallable ask }
{
    let [] = slices::<0>(input, 4).ok_or(Failure::Unreadable)?;
    let position = Position {
        n: number(input, 1),
        m: number(input, 2),
        at: number(input, 3),
    };
    let asked = ask(position);
    print_verdict(rt, asked.map(|_| ()))?;
    if let Ok(asked) = asked {
        print_asked(rt, asked)?;
    }
    Ok(())
}

fn print_asked(rt: &impl Print, asked: Asked) -> io::Result<()> {
    match asked {
        Asked::Order(order, next) => {
            print_order(rt, order)?;
            print_number(rt, b"next", next.at)
        }
        Asked::Ended => rt.println("ended"),
    }
}

// An order's kind and target, then its constant or the two cells that it reads.
fn print_order(rt: &impl Print, order: Order) -> io::Result<()> {
    let Parts { kind, d, k, a, b } = Parts::from(order);
    match order {
        Order::Constant { .. } => println!(rt; "order {kind} {d} {k}"),
        _ => println!(rt; "order {kind} {d} {a} {b}"),
    }
}

// ---- The plan's total: n and m

fn call_total(rt: &impl Print, input: &[u8]) -> Result<(), Failure> {
    let [] = slices::<0>(input, 3).ok_or(Failure::Unreadable)?;
    Ok(print_counted(rt, Plan::total(number(input, 1), number(input, 2)))?)
}

// ---- Writing the plan, by rows or by columns: n, m and a position; bytes

fn call_write<F>(rt: &impl Print, input: &[u8], write: F) -> Result<(), Failure>
where
    F: FnOnce(usize, usize, usize, &mut [u8]) -> Result<Written, Reason>,
    requires { F.IsAlwaysCallable write }
{
    let ([], slice) = slices_and_bytes::<0>(input, 4).ok_or(Failure::Unreadable)?;
    let mut bytes = room();
    let slice = lend(input, slice, &mut bytes);
    print_written(
        rt,
        write(number(input, 1), number(input, 2), number(input, 3), slice),
    )?;
    Ok(print_numbers(rt, b"slice", slice)?)
}

// The verdict and the counts.
fn print_written(rt: &impl Print, written: Result<Written, Reason>) -> io::Result<()> {
    print_verdict(rt, written.map(|_| ()))?;
    let given = written_given(written);
    print_number(rt, b"bytes", given.bytes)?;
    print_number(rt, b"orders", given.orders)?;
    print_number(rt, b"next", given.next)
}

// ---- A holder's view: n, m and the holder; table, results, view

fn call_view(rt: &impl Print, input: &[u8]) -> Result<(), Failure> {
    let [table, results, out] = slices::<3>(input, 4).ok_or(Failure::Unreadable)?;
    let mut holders = room();
    let table = lend(input, table, &mut holders);
    let mut numbers = room();
    let results = lend(input, results, &mut numbers);
    let mut shown = room();
    let out = lend(input, out, &mut shown);
    let verdict = view(
        number(input, 1),
        number(input, 2),
        table,
        word(input, 3),
        results,
        out,
    );
    print_verdict(rt, verdict)?;
    Ok(print_numbers(rt, b"view", out)?)
}

// ---- Checking: n and m; bids, capacities, amounts, flows

fn call_check(rt: &impl Print, input: &[u8]) -> Result<(), Failure> {
    let [bids, capacities, amounts, flows] = slices::<4>(input, 3).ok_or(Failure::Unreadable)?;
    let mut tables = Tables::new();
    let book = tables.lend(input, bids, capacities);
    let mut sent_amounts = room();
    let mut sent_flows = room();
    let sent = Sent {
        amounts: lend(input, amounts, &mut sent_amounts),
        flows: lend(input, flows, &mut sent_flows),
    };
    let checked = check(&book, &sent);
    print_verdict(rt, checked.map(|_| ()))?;
    Ok(print_number(rt, b"yes", usize::from(yes_given(checked)))?)
}
