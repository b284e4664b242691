//! The windows of a windowed count.
ghost use Rattle.std.specs.Prelude.{◌≡◌, ◌≤◌, Some, None, cond};
ghost use Rattle.ks_plan.specs.Plan.{natural, or_number, window_of};
ghost use Rattle.ks_plan.specs.Shape.{shape};
ghost use Rattle.ks_task_nodes.specs.Windows.{fits_window};

use ks_plan::Window;
use std::marker::Model;

/// Hopping windows whose advance is at least 1 ms and at most the size; contracts see size, advance and grace.
#[derive(Drop)]
pub struct HoppingWindow {
    window: Window,
}

impl Model for HoppingWindow {
    ghost use Rattle.std.specs.Prelude.{◌≡◌, ◌≤◌};
    ghost use Rattle.ks_plan.specs.Plan.{Window as PlanWindow};
    ghost use Rattle.ks_plan.specs.Shape.{shape};

    ghost Value = { PlanWindow };

    ghost view = { λ h. shape h.window };

    ghost invariant = { λ h. (1 ≤ h.window.advance) × (h.window.advance ≤ h.window.size) };
}

// A day in milliseconds, where a node names no grace.
const DEFAULT_GRACE: u64 = 86_400_000;

// A number as a count; below 0 it is none.
fn natural(number: i64) -> u64
    ensures { result ≡ natural number }
{
    if number < 0 { 0 } else { number as u64 }
}

fn or_number(number: Option<i64>, other: u64) -> u64
    ensures { result ≡ or_number number other }
{
    match number {
        Some(number) => natural(number),
        None => other,
    }
}

fn window_in(size: i64, advance: Option<i64>, grace: Option<i64>) -> Window
    ensures { shape result ≡ window_of size advance grace }
{
    let size = natural(size);
    Window {
        size,
        advance: or_number(advance, size),
        grace: or_number(grace, DEFAULT_GRACE),
    }
}

impl HoppingWindow {
    /// Of a node's size, advance and grace in milliseconds; none where the advance is 0 or above the size.
    pub fn of(size: i64, advance: Option<i64>, grace: Option<i64>) -> Option<HoppingWindow>
        ensures { result ≡ cond (fits_window (window_of size advance grace))
            (Some (window_of size advance grace)) None }
    {
        let window = window_in(size, advance, grace);
        if 1 <= window.advance && window.advance <= window.size {
            Some(HoppingWindow { window })
        } else {
            None
        }
    }

    /// The size, the advance and the grace in milliseconds.
    pub fn window(&self) -> &Window
        ensures shape { shape result.now ≡ self.now }
        ensures some { 1 ≤ result.now.advance }
        ensures most { result.now.advance ≤ result.now.size }
    {
        &self.window
    }
}
