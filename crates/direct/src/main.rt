// Feeds a script of calls from standard input to the direct machine, and prints what it answers.
#![tactic(auto)]

use bank::Bank;
use script::Session;
use std::io::Read;

// How much is read at a time.
const CHUNK: usize = 4096;

fn main(rt: HostRuntime) -> anyhow::Result<()> {
    let mut session = Session::new();
    let mut chunk = [0; CHUNK];
    // A count, since every loop is proved to end. Not `rt.stdin().bytes()`, which asks the system for each byte: 13 times as slow.
    for _ in 0..u64::MAX {
        let n = rt.stdin().read(&mut chunk)?;
        if n == 0 {
            break;
        }
        feed(&rt, &mut session, &chunk[..n])?;
    }
    if let Some(reply) = session.end_line() {
        println!(rt; "{reply}")?;
    }
    print_end(&rt, session.bank())
}

fn feed(rt: &HostRuntime, session: &mut Session, bytes: &[u8]) -> anyhow::Result<()> {
    for b in bytes {
        if let Some(reply) = session.byte(*b) {
            println!(rt; "{reply}")?;
        }
    }
    Ok(())
}

// No `Display`: these three numbers of a bank are printed here alone.
fn print_end(rt: &HostRuntime, bank: Bank) -> anyhow::Result<()> {
    let tpr = bank.tpr();
    let requests = bank.requests().count();
    let service = bank.in_service().count();
    println!(rt; "end: TPR {tpr:02X}, requests {requests:02X}, in service {service:02X}")?;
    Ok(())
}
