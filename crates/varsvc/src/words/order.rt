ghost use Rattle.std.specs.Prelude.{◌≡◌, option_map};

use crate::words::ImageName;

/// What the words of the command line ask for.
#[derive(Debug, Drop)]
pub enum Order {
    /// Run a script of calls on an image.
    Run { image: ImageName },
    /// Play a script with a schedule, step by step.
    Play,
    /// List the non-volatile variables of an image.
    List { image: ImageName },
    /// Check an image: count what it keeps.
    Check { image: ImageName },
    /// Leave an image without variables.
    Format { image: ImageName },
    /// Print the script of a number.
    Make { number: u32 },
    /// Run the script of a number on a blank image in memory.
    Work { number: u32 },
    /// Print the script that registers the policies of a text.
    Entries,
    /// Hold the non-volatile variables of an image against the policies of a text.
    Audit { image: ImageName },
}

impl Order {
    ghost use Rattle.varsvc.specs.Order.{image_of};

    /// The image that it is about, if it is about one.
    pub fn image(&self) -> Option<&ImageName>
        ensures { option_map (λ image. image.now) result ≡ image_of self.now }
    {
        match self {
            Order::Run { image }
            | Order::List { image }
            | Order::Check { image }
            | Order::Format { image }
            | Order::Audit { image } => Some(image),
            Order::Play | Order::Entries | Order::Make { .. } | Order::Work { .. } => None,
        }
    }
}
