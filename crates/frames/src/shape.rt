// A frame's lengths: what a writer needs to know of a frame that it takes.
ghost use Rattle.std.specs.Prelude.{◌≡◌, ◌<◌, ◌^◌};
ghost use Rattle.frames.specs.Shape.{size_of};

// A caller's lengths may be any: 1 and 2 refuse those past a header's numbers, so no type bounds them, and what is called after asks for the bounds.
#[derive(Clone, Copy)]
pub struct Shape {
    // bytes before the key
    pub front: u16,
    pub key: usize,
    pub value: usize,
    // bytes behind the value
    pub back: u16,
    pub stated: u32,
}

impl Shape {
    pub(crate) fn size(self) -> usize
        requires key { self.key < 65536 }
        requires value { self.value < 2 ^ 32 }
        ensures { result ≡ size_of self }
    {
        self.front as usize + self.key + self.value + self.back as usize
    }
}
