// Gives the functions by which ladder-list and ladder-scan complain names and texts that one write holds, and longer ones, and writes an
// output under a longer name. The gate compares standard output; examples/check compares standard error, with a full device too.
#![tactic(auto)]

fn main(rt: HostRuntime) {
    let name = [b'n'; 101];
    let mut what = [b'w'; 101];
    what[100] = b'\n';
    program_refusals::complain(rt.stderr(), &name[1..], &what[1..]);
    program_refusals::complain(rt.stderr(), &name, &what[1..]);
    program_refusals::complain(rt.stderr(), &name[1..], &what);
    program_refusals::write_output(rt.stdout(), rt.stderr(), &name, b"written\n");
}
