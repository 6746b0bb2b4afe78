//! An example: plans the scene on standard input two marks at a time, and prints each better path as it comes.
#![tactic(auto)]

use any_time::Session;
use futures::StreamExt;
use futures::executor::block_on;
use obstacle_boxes::Boxes;
use plan_model::{MOST_TEXT_BYTES, Memory, Scene, Task};
use scene_text::read_scene;
use std::alloc::Global;
use std::io;
use std::io::Read;
use std::thread::Threads;
use strip_sampler::marks;
use swept_check::Hall;

// With more workers the paths may differ from call to call.
const WORKERS: u32 = 1;

const MARKS_AT_A_TIME: u32 = 2;

const MOST_PATHS: u32 = 100;

/// A session of the scene over all its marks. `None` if the start is not clear.
fn session_of<R: Threads + Sync + Drop>(
    rt: R,
    alloc: Global,
    scene: Scene,
) -> Result<Option<Session<Boxes, R>>, Memory> {
    let hall = Hall::new(alloc, &scene)?;
    if !hall.clear_at(scene.start) {
        return Ok(None);
    }
    let boxes = Boxes::new(alloc, hall)?;
    let marks = marks(alloc, &scene)?;
    let task = Task { scene, marks };
    let session = Session::new(rt, alloc, task, boxes, WORKERS, MARKS_AT_A_TIME)?;
    Ok(Some(session))
}

fn main(rt: HostRuntime) -> io::Result<()> {
    let mut text = Vec::new(rt.alloc());
    rt.stdin().read_to_end(&mut text)?;
    if text.len() > MOST_TEXT_BYTES {
        return println!(rt; "text too long");
    }
    let scene = match read_scene(rt.alloc(), &text) {
        Ok(scene) => scene,
        Err(refusal) => return println!(rt; "{refusal}"),
    };
    let mut session = match session_of(rt.clone()?, rt.alloc(), scene) {
        Ok(Some(session)) => session,
        Ok(None) => return println!(rt; "start blocked"),
        Err(memory) => return println!(rt; "{memory}"),
    };
    for _ in 0..MOST_PATHS {
        match block_on(&rt, session.next())? {
            Some(Ok(better)) => println!(rt; "cost {} after {} marks", better.cost, better.marks)?,
            Some(Err(memory)) => return println!(rt; "{memory}"),
            None => break,
        }
    }
    Ok(())
}
