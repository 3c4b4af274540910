use crate::words::command;
use crate::{WordsFault, read_words, usage};
use std::alloc::{AllocError, Global};
use std::test::Fail;

fn command_line(alloc: Global, workers: &str) -> Result<Vec<String>, AllocError> {
    let mut words = Vec::new(alloc);
    words.push(String::from_str(alloc, "green_server")?)?;
    words.push(String::from_str(alloc, "work")?)?;
    words.push(String::from_str(alloc, "127.0.0.1:7088")?)?;
    words.push(String::from_str(alloc, workers)?)?;
    Ok(words)
}

#[test]
fn two_workers(rt: HostRuntime) -> Result<(), Fail> {
    let words = command_line(rt.alloc(), "2")?;
    let read = read_words(rt.alloc(), words.as_slice())?;
    assert!(rt; read.folder.as_slice() == b"work".as_slice());
    assert!(rt; read.address.as_slice() == b"127.0.0.1:7088".as_slice());
    assert!(rt; read.workers == 2 && read.sessions.is_none());
    Ok(())
}

#[test]
fn too_many_workers(rt: HostRuntime) -> Result<(), Fail> {
    let words = command_line(rt.alloc(), "65")?;
    let refused = read_words(rt.alloc(), words.as_slice());
    assert!(rt; matches!(refused, Err(WordsFault::Usage)));
    Ok(())
}

#[test]
fn usage_text(rt: HostRuntime) -> Result<(), Fail> {
    let mut reader = command(rt.alloc())?;
    let rendered = reader.render_usage()?;
    let text = usage(rt.alloc())?;
    assert!(rt; text.as_str() == rendered.as_str());
    Ok(())
}
