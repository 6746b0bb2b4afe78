//! Tests of `convex_sets`: polygons, their boxes, and zones.

mod bounding_boxes;
mod clearances;
mod is_convex;
mod support;
mod zones;
