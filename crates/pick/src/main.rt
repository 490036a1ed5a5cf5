// The program pick (SPECIFICATION, "The program pick"), on `prefs.bin` and `rows.bin` of the working directory.
#![tactic(auto)]

fn main(rt: HostRuntime) {
    pick_files::run(&rt, b"prefs.bin", b"rows.bin");
}
