// The places of the names among the arguments.
ghost use Rattle.std.specs.Prelude.{◌≤◌};

// The most shows that a cart has.
const SHOWS: usize = 64;

// The place of the first `--`, or of the end of the arguments.
pub fn end_place(rt: &HostRuntime) -> usize {
    let count = console::arg_count(rt);
    (1..count)
        .find(|i| console::is_end(rt, *i))
        .unwrap_or(count)
}

// The place of a name, counted from 0: all before `--` are names, and all behind it.
pub fn name_place(i: usize, end: usize) -> usize
    requires { i ≤ 65 }
{
    if i + 1 < end { i + 1 } else { i + 2 }
}

// The place of a show's name; none has that of one that is not there.
pub fn show_place(i: usize, end: usize) -> usize {
    if i < SHOWS { name_place(i + 2, end) } else { 0 }
}
