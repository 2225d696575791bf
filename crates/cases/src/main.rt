// Loads damaged texts and prints what each is refused by. A case is a line of standard input with the parts
// kind|slots|old|new|name: the first `old` of the worked problem file (kind `shop`) or of its plan text (kind `plan`) becomes
// `new`, and `*` stands for the whole text. A plan is loaded into a slice of so many rows.
#![tactic(auto)]

mod edits;
mod loads;
mod longest;

use edits::{edited, parts};
use input::first_bytes;
use loads::{load_plan, load_shop};

// The worked texts stand here and in a test of `views`: neither reads files of the other.
const SHOP: &str =
    "shop=7\nfacts=3\nops=3\ntasks=1\nmethods=2\nstart=\nfirst=3\nshelf=0\nyes=\nno=0\nadd=0\ndel=\nshelf=4117\nyes=0\nno=1\nadd=1\ndel=\nshelf=4118\nyes=0\nno=2\nadd=2\ndel=\nfor=3\nyes=0\nno=\nsub=1,2\nfor=3\nyes=\nno=0\nsub=0,3\n";

const PLAN: &str = "shop=7\nrows=5\nby=1\ndo=0\nby=0\ndo=1\ndo=2\n";

fn run_case(rt: &HostRuntime, line: &str) -> anyhow::Result<()> {
    let (kind, rest) = parts(line);
    let (slots, rest) = parts(rest);
    let (old, rest) = parts(rest);
    let (new, name) = parts(rest);
    print!(rt; "{name}")?;
    // two kinds, read from the table
    if kind == "shop" {
        let text = edited(rt.alloc(), SHOP, old, new)?;
        return load_shop(rt, SHOP.as_bytes(), text.as_bytes());
    }
    let text = edited(rt.alloc(), PLAN, old, new)?;
    load_plan(
        rt,
        SHOP.as_bytes(),
        text.as_bytes(),
        slots.parse::<usize>()?,
    )
}

fn main(rt: HostRuntime) -> anyhow::Result<()> {
    let rt = &rt;
    let table = first_bytes(rt.alloc(), &mut rt.stdin())?;
    for line in str::from_utf8(table.as_slice())?.lines() {
        run_case(rt, line)?;
    }
    longest::file(rt)?;
    longest::plan(rt, SHOP.as_bytes())
}
