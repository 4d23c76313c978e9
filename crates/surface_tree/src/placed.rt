//! Items of a tree.

ghost use Rattle.std.specs.Prelude.{◌≡◌};
ghost use Rattle.surface_tree.specs.declared.placed.Plot.{Plot as APlot};

use grid_exact::Area;

/// The placement of an item: its area, and the level of the squares that hold it.
#[derive(Clone, Copy)]
pub struct Plot {
    pub area: Area,
    pub level: u32,
}

/// A value with a plot, whose area decides which points hit it, and a key, under which a tree holds it. Both are fixed by the value.
pub trait Placed {
    type Key: Ord + Copy;

    ghost plot_of: { Self → APlot };

    ghost key_of: { Self → Self.Key };

    /// The plot of the value.
    fn plot(&self) -> Plot
        ensures { result ≡ plot_of self.now };

    /// The key of the value.
    fn key(&self) -> Self::Key
        ensures { result ≡ key_of self.now };
}
