//! Which modules are found for a name.

pub(super) const ROWS: &str = r"
~ an alias leads to its module
%catalogue
module usbx
%alias
alias usb:v[0-9A-F]*p?? usbx
%find usb:v0pp12
usbx
~ no alias matches another device
%find usb:vGp12
not found
~ an alias does not lead to a blacklisted module
%catalogue
module usbx
%conf
blacklist usbx
%alias
alias usb:v[0-9A-F]*p?? usbx
%find usb:v0pp12
not found
~ a blacklisted module is found by its own name
%find usbx
usbx
~ a blacklisted module has a plan
%catalogue
module usbx
%conf
blacklist usbx
%plan usbx
usbx hard
~ each target stands once, also one that no module has
%catalogue
module usbx
%alias
alias usb:v[0-9A-F]*p?? usbx
alias usb* other-1
alias usb:* usbx
%find usb:v0pp12
usbx
other_1
~ the module itself comes before modules.alias
%find usbx
usbx
~ of the targets the blacklisted one is left out
%catalogue
module usbx
%conf
blacklist usbx
%alias
alias usb:v[0-9A-F]*p?? usbx
alias usb* other-1
alias usb:* usbx
%find usb:v0pp12
other_1
~ all targets are blacklisted
%catalogue
module usbx
%conf
blacklist usbx
blacklist other-1
%alias
alias usb:v[0-9A-F]*p?? usbx
alias usb* other-1
alias usb:* usbx
%find usb:v0pp12
not found
~ the configuration's aliases come first: each target once, blacklisted or not, and no alias of a target
%catalogue
module usbx
%conf
alias usb* y-z
alias usbx y_z
blacklist y_z
alias y_z usbx
%alias
alias usb:v[0-9A-F]*p?? usbx
alias usb* other-1
alias usb:* usbx
%find usbx
y_z
~ of aliases with one longest run those match that begin as the name does, with fewer bytes than eight, eight, or more
%catalogue
module one
%alias
alias device:1*same-longest-run one
alias device:12*same-longest-run two
alias dev*same-longest-run three
alias [d]evice*same-longest-run four
alias device:2*same-longest-run five
alias device:123456789*same-longest-run six
%find device:12-same-longest-run
one
two
three
four
~ a name with fewer bytes before the run
%find dev-same-longest-run
three
~ a name that begins with the run
%find same-longest-run
not found
~ an alias with a dash matches a name with a dash
%catalogue
module usbx
%conf
alias a-b usbx
%find a-b
usbx
";
