ghost use Rattle.std.specs.Prelude.{◌≡◌, ℕ, ◌+◌, ◌<◌, ◌≤◌, true, IfOk, length};
ghost use Rattle.std.specs.List.{AllByRecursion};
ghost use Rattle.flit_words.specs.Layouts.{Accepted, words_of};
ghost use Rattle.flit_structure.specs.Meanings.{IsServed};
ghost use Rattle.flit_table.specs.Passes.{MayWork, own_calls, view_of};
ghost use Rattle.flit_table.specs.Steps.{meaning_of};
ghost use Rattle.flit_workers.specs.Works.{IsRightItem};
ghost use Rattle.flit_workers.specs.Ends.{HaveEnded};

use flit_model::{Call, Item, Work};
use flit_structure::Structure;
use flit_table::{Pass, Running};
use flit_words::{GREATEST_KEY, Layout, NoMemory};
use flit_workers::{End, Gate, run_workers};
use std::alloc::Global;
use std::process::Abort;
use std::sync::Wait;
use std::thread::Threads;

fn call_is_right(rt: &impl Abort, layout: &Layout, call: Call)
    ensures { IsServed layout.now call }
{
    assert!(rt; layout.values);
    match call {
        Call::Insert(key, _) => assert!(rt; key <= GREATEST_KEY),
        Call::Remove(key) => assert!(rt; key <= GREATEST_KEY),
        Call::Contains(key) => assert!(rt; key <= GREATEST_KEY),
        Call::Get(key) => assert!(rt; key <= GREATEST_KEY),
    }
}

fn item_is_right(rt: &impl Abort, layout: &Layout, item: Item)
    requires { Accepted layout.now }
    ensures { IsRightItem layout.now item }
{
    match item {
        Item::Call(call) => call_is_right(rt, layout, call),
        Item::Evict(word) => assert!(rt; word < layout.words()),
    }
}

fn items_are_right(rt: &impl Abort, layout: &Layout, items: &[Item])
    requires { Accepted layout.now }
    ensures right { AllByRecursion (IsRightItem layout.now) items.now }
    ensures most { length items.now ≤ 4294967295 }
{
    assert!(rt; items.len() <= 4294967295);
    for item in items {
        item_is_right(rt, layout, *item);
    }
}

/// Sees that each item of these works is right for the layout, and that no work has too many; else the test ends here.
pub fn works_are_right(rt: &impl Abort, layout: &Layout, works: &[Work])
    requires { Accepted layout.now }
    ensures right { AllByRecursion (λ w. AllByRecursion (IsRightItem layout.now) w.items.items)
        works.now }
    ensures most { AllByRecursion (λ w. length w.items.items ≤ 4294967295) works.now }
{
    for work in works {
        items_are_right(rt, layout, &work.items);
    }
}

/// Runs Works, once they are seen to be right.
pub fn run_right<
    S: Structure<Op: Send> + Send + Sync,
    G: Gate + Sync,
    R: Threads + Wait + Abort + Sync,
>(
    rt: &R,
    alloc: Global,
    running: &Running<S>,
    pass: Pass<S>,
    layout: &Layout,
    works: Vec<Work>,
    gate: &G,
) -> Result<Vec<End<S>>, NoMemory>
    requires accepted { Accepted layout.now }
    requires layout { (meaning_of S.meaning running.now).layout ≡ layout.now }
    requires pass { MayWork S.meaning running.now pass }
    requires calls { own_calls pass ≡ 0 }
    ensures { IfOk result (λ ends. HaveEnded S.meaning running.now (view_of pass) works.items
        ends.items) }
{
    assert!(rt; works.len() == pass.names() as usize);
    works_are_right(rt, layout, works.as_slice());
    match run_workers(rt, alloc, running, pass, works, gate) {
        Ok(ends) => Ok(ends),
        Err((_, error)) => Err(error),
    }
}
