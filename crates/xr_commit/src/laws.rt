//! What the definition of the live stream gives to those who rest on it.
ghost use Rattle.xr_commit.specs.LiveLaws.{IsOneLive};

/// An image has at most one live stream, so [`live`](crate::live) gives that very one. The call does nothing.
pub fn images_have_one_live_stream()
    ensures { IsOneLive }
{}
