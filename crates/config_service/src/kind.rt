ghost use Rattle.std.specs.Prelude.{◌≡◌};
ghost use Rattle.config_service.specs.Names.{kind_text, kind_named};

/// The messages of the configuration service by their names.
#[derive(Clone, Copy, Debug, PartialEq, Eq)]
pub enum ConfigKind {
    GetConfiguration,
    SetConfiguration,
    CurrentConfiguration,
    Notification,
    /// A message of an unknown name.
    Other,
}

impl ConfigKind {
    /// The name of a message, and `Other`.
    pub fn text(self) -> &'static str
        ensures { result.now ≡ kind_text self }
    {
        match self {
            ConfigKind::GetConfiguration => "GetConfiguration",
            ConfigKind::SetConfiguration => "SetConfiguration",
            ConfigKind::CurrentConfiguration => "CurrentConfiguration",
            ConfigKind::Notification => "Notification",
            ConfigKind::Other => "Other",
        }
    }
}

/// The message of this name.
pub fn kind_named(name: &[u8]) -> ConfigKind
    ensures { result ≡ kind_named name.now }
{
    if name == &b"GetConfiguration"[..] {
        return ConfigKind::GetConfiguration;
    }
    if name == &b"SetConfiguration"[..] {
        return ConfigKind::SetConfiguration;
    }
    if name == &b"CurrentConfiguration"[..] {
        return ConfigKind::CurrentConfiguration;
    }
    if name == &b"Notification"[..] {
        return ConfigKind::Notification;
    }
    ConfigKind::Other
}
