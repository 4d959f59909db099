//! A session of two sites, each a thread with a script of its own.

ghost use Rattle.std.specs.Prelude.{◌≤◌, IfOk, vec_len};

use gf_gate::OpenGate;
use gf_json::{Command, read_script};
use gf_session::{Script, run_session};
use std::alloc::Global;
use std::test::Fail;

const CREATE: &str =
    r#"{"do":"create","site":1,"kind":"circle","place":[0,0],"size":[9,9],"colour":"00ff00","layer":0,"shown":true}"#;

const AWAIT: &str = r#"{"do":"await","site":2,"id":[1,1]}"#;

/// The script of one command.
fn script(alloc: Global, line: &str) -> Result<Script, Fail>
    ensures { IfOk result (λ script. vec_len script.0 ≤ 1000) }
{
    let mut commands = Vec::new(alloc);
    commands.push(read_script(alloc, line.as_bytes())?.command)?;
    Ok(Script(commands))
}

#[test]
fn two_sites_end_with_one_history(rt: HostRuntime) -> Result<(), Fail> {
    let alloc = rt.alloc();
    let mut scripts = Vec::new(alloc);
    scripts.push(script(alloc, CREATE)?)?;
    scripts.push(script(alloc, AWAIT)?)?;

    for done in run_session(&rt, alloc, scripts, &OpenGate)?.iter() {
        assert_eq!(rt; done.site.history().ops().len(), 1);
    }
    Ok(())
}
