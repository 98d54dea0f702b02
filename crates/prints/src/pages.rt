// The preamble run, and a page run from what it left: its final frame, kept aside, and its cells.
ghost use Rattle.std.specs.Prelude.{◌≡◌, ◌≤◌, length};
ghost use Rattle.machine.specs.Readable.{Whole};
ghost use Rattle.origins.specs.Bodies.{Short};
ghost use Rattle.prints.specs.Ran.{Preambled, Paged, Ready};

use state::Registers;

// The preamble, beside no page.
pub fn preamble<'a>(w: &mut [u8], pre: &'a [u8], none: &'a [u8], allowance: usize) -> Registers
    requires { (48000 ≤ length w.old) × Short pre.now none.now × (length none.now ≡ 0) × (allowance ≤ 1000000) × Whole pre.now }
    ensures { Preambled pre.now allowance w.new result }
{
    contexts::frames::zero_frame(w);
    let at = nesting::bodies::past_comments(pre, 0);
    let r = contexts::bodies::open(
        w,
        0,
        table::words::word(at),
        table::words::word(pre.len()),
        0,
    );
    let q = engine::steps::run(w, r, pre, none, allowance);
    contexts::frames::keep_frame(w);
    q
}

// A page, of which `used` cells are the preamble's.
pub fn page<'a>(
    w: &mut [u8],
    pre: &'a [u8],
    body: &'a [u8],
    used: usize,
    allowance: usize,
) -> Registers
    requires { Ready pre.now allowance used w.old × Short pre.now body.now × (allowance ≤ 1000000) × Whole pre.now × Whole body.now }
    ensures { Paged pre.now body.now used allowance w.old w.new result }
{
    contexts::frames::take_frame(w);
    let at = nesting::bodies::past_comments(body, 0);
    let r = contexts::bodies::open(
        w,
        1,
        table::words::word(at),
        table::words::word(body.len()),
        used,
    );
    engine::steps::run(w, r, pre, body, allowance)
}
