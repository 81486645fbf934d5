// Cases as `given` has them:
//   12 to 14  'cbc seal', 'cbc open', 'ctr', the number and the destination
use crate::{given, printing, reading};
use labyrinth::WorkingKey;
use std::io;

fn print_run(
    rt: &impl Print,
    kind: u8,
    k: WorkingKey,
    start: &[u8],
    q: u64,
    src: &[u8],
    dst: &mut [u8],
) -> io::Result<()> {
    let store = stores::fresh();
    let (name, number) = match kind {
        12 => ("cbc seal", cbc::seal(store, k, start, src, dst)),
        13 => ("cbc open", cbc::open(store, k, start, src, dst)),
        _ => ("ctr", ctr::run(store, k, start, q, src, dst)),
    };
    printing::answer(rt, name, number, dst)
}

pub fn print_case(rt: &impl Print, kind: u8, case: &[u8]) -> io::Result<()> {
    let mut space = given::space();
    let dst = reading::front(&mut space, given::room(case));
    let k = given::working_key(case);
    print_run(
        rt,
        kind,
        k,
        given::start(case),
        given::q(case),
        given::source(case),
        dst,
    )
}
