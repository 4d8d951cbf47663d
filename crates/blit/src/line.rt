// What a line is. Its methods are in `lines`, whose contracts cite specs/Working; that speaks of a line, so it is declared apart.

ghost use Rattle.std.specs.Prelude.{◌≡◌, false};
ghost use Rattle.blit_raster.specs.Raster.{uses_source};

// A line: the raster code, the direction, the lowest addresses of its destination and its source, the first of its pattern's
// eight bytes, and its width. For want of a source it has its destination there.
#[derive(Clone, Copy)]
pub(crate) struct Line {
    pub(crate) code: u8,
    pub(crate) left: bool,
    pub(crate) d: usize,
    pub(crate) s: usize,
    pub(crate) p: usize,
    pub(crate) w: usize,
    ghost no_source: { uses_source code ≡ false → s ≡ d },
}
