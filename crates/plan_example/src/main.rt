//! An example: plans the scene on standard input with four workers, and prints the points of the cheapest path.
#![tactic(auto)]

use obstacle_boxes::Boxes;
use plan_model::{MOST_TEXT_BYTES, Memory, Point, Scene, Task};
use plan_work::{NoGate, grow};
use scene_text::read_scene;
use settle_report::{best, path_to, settle};
use std::alloc::Global;
use std::io;
use std::io::Read;
use std::thread::Threads;
use step_core::Grown;
use strip_sampler::marks;
use swept_check::Hall;

const WORKERS: u32 = 4;

/// The points of the cheapest path from the start into a goal, in the tree that the workers grow over all marks of the
/// scene. `None` if the start is not clear, or no node of that tree lies in a goal.
fn cheapest_path<R: Threads + Sync>(
    rt: &R,
    alloc: Global,
    scene: Scene,
) -> Result<Option<Vec<Point>>, Memory> {
    let hall = Hall::new(alloc, &scene)?;
    if !hall.clear_at(scene.start) {
        return Ok(None);
    }
    let boxes = Boxes::new(alloc, hall)?;
    let marks = marks(alloc, &scene)?;
    let limit = marks.len() as u32;
    let start = Grown::new(alloc, Task { scene, marks })?;
    let mut grown = grow(rt, alloc, start, &boxes, WORKERS, limit, &NoGate)?;
    settle(alloc, &mut grown)?;
    let Some(node) = best(&grown) else {
        return Ok(None);
    };
    Ok(Some(path_to(alloc, &grown, node)?))
}

fn main(rt: HostRuntime) -> io::Result<()> {
    let mut text = Vec::new(rt.alloc());
    rt.stdin().read_to_end(&mut text)?;
    if text.len() > MOST_TEXT_BYTES {
        return println!(rt; "text too long");
    }
    let scene = match read_scene(rt.alloc(), &text) {
        Ok(scene) => scene,
        Err(refusal) => return println!(rt; "{refusal}"),
    };
    match cheapest_path(&rt, rt.alloc(), scene) {
        Ok(Some(path)) => {
            for point in &path {
                println!(rt; "{} {}", point.x, point.y)?;
            }
            Ok(())
        }
        Ok(None) => println!(rt; "no path"),
        Err(memory) => println!(rt; "{memory}"),
    }
}
