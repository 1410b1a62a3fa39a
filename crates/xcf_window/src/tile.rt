// A tile's window, and the tile decoded from it.
ghost use Rattle.std.specs.Prelude.{◌≡◌, ◌<◌, length};
ghost use Rattle.xcf_numbers.specs.Limit.{tile_size};
ghost use Rattle.xcf_store.specs.Width.{bytes_of};
ghost use Rattle.xcf_grid.specs.Parts.{frame_of};
ghost use Rattle.xcf_window.specs.Window.{pointer_at, window_end};
ghost use Rattle.xcf_window.specs.Parts.{InFile, IsReady, Scratched, tile_at, window_at};

use crate::drawable::Drawable;
use xcf_grid::frame::Frame;
use xcf_store::pointer::number_at;
use xcf_tile::decode;

impl<'a> Drawable<'a> {
    // The pointer of tile t.
    #[tactic(auto, unfolding(crate::specs::Window::pointer_at))]
    fn pointer_at(&self, t: u32) -> usize
        requires { InFile self.now t }
        ensures { result ≡ pointer_at (bytes_of self.now.width) self.now.file.now self.now.row t }
    {
        let at = self.row.pointers as usize + self.width.bytes() * t as usize;
        number_at(self.file, at, self.width)
    }

    // Where the window of tile t ends, before it is cut.
    #[tactic(auto, unfolding(crate::specs::Window::window_end))]
    fn window_end(&self, t: u32) -> usize
        requires { (t < self.now.row.count) × InFile self.now self.now.row.count }
        ensures { result ≡ window_end (bytes_of self.now.width) self.now.file.now self.now.row t }
    {
        let count = self.row.count;
        let next = t + 1;
        if next < count {
            return self.pointer_at(next);
        }
        self.file.len()
    }

    // The window of tile t, before it is cut.
    fn window(&self, t: u32) -> &'a [u8]
        requires { IsReady self.now × (t < self.now.row.count) }
        ensures { result.now ≡ window_at self.now t }
    {
        let start = self.pointer_at(t);
        let end = self.window_end(t);
        &self.file[start..end]
    }

    // The mark of tile t, whose pixels go to the start of the scratch.
    pub fn decode(&self, t: u32, frame: Frame, scratch: &mut [u8]) -> u8
        requires ready { IsReady self.now }
        requires t_lt_count { (t < self.now.row.count) × (frame ≡ frame_of self.now.row t) × (length scratch.old ≡ tile_size) }
        ensures { Scratched (tile_at self.now t) result scratch.old scratch.new }
    {
        let row = self.row;
        let n = (frame.width * frame.height) as usize;
        let depth = row.depth as usize;
        let pixels = &mut scratch[..n * depth];
        let end = decode(self.window(t), n, depth, self.compression, pixels);
        end.mark()
    }
}
