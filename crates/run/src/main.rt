//! The run program (Manual 15.1), on the worked example (Manual 16.2): three instructions and a limit of 3.
//!
//! Runs the files of the folder that it is started in.
#![tactic(auto)]

fn main(rt: HostRuntime) {
    runner::run_files(&rt);
}
