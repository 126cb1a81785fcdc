//! The style of an SVG, and its legend.

use crate::page::Page;

/// The title, the colours in light and dark, and the fading of open calls.
const STYLE: &str = "<title>Calls of a schedule</title>
<style>
svg{max-width:100%;height:auto}
text{font:11px ui-monospace,Menlo,Consolas,'DejaVu Sans Mono','Liberation Mono',monospace;fill:#1f2328}
.paper{fill:#ffffff}
.soft{fill:#59636e}
.rule{stroke:#d1d9e0;stroke-width:1}
.axis,.lead{stroke:#818b98;stroke-width:1}
.hair{stroke:#818b98;stroke-width:1;stroke-dasharray:1 3}
.label{paint-order:stroke;stroke:#ffffff;stroke-width:4px;stroke-linejoin:round}
.bar{stroke-width:1.25}
.done .bar{fill:#dbeafe;stroke:#2563ab}
.refused .bar{fill:#ffe2cc;stroke:#b1430a;stroke-dasharray:5 2}
.pending .bar{fill:#e8ebef;stroke:#818b98}
.bar.cut{stroke:none}
.edge{fill:none;stroke-width:1.25}
.done .edge{stroke:#2563ab}
.refused .edge{stroke:#b1430a;stroke-dasharray:5 2}
.pending .edge{stroke:#818b98}
.done .open{fill:url(#open-done);stroke:none}
.refused .open{fill:url(#open-refused);stroke:none}
.pending .open{fill:url(#open-pending);stroke:none}
.done .mark{fill:#2563ab;stroke:#ffffff}
.refused .mark{fill:#b1430a;stroke:#ffffff}
.done .reply{fill:#1d4f8a}
.refused .reply{fill:#953800;font-weight:bold}
.pending .reply{fill:#59636e}
.c-done{stop-color:#bfdbfe}
.c-refused{stop-color:#ffd0ae}
.c-pending{stop-color:#d1d9e0}
@media(prefers-color-scheme:dark){
text{fill:#e6edf3}
.paper{fill:#0d1117}
.soft{fill:#9198a1}
.label{stroke:#0d1117}
.rule{stroke:#262c36}
.axis,.lead,.hair{stroke:#7d8590}
.done .bar{fill:#12304f;stroke:#58a6ff}
.refused .bar{fill:#4a2410;stroke:#f0883e}
.pending .bar{fill:#21262d;stroke:#7d8590}
.bar.cut{stroke:none}
.done .edge{stroke:#58a6ff}
.refused .edge{stroke:#f0883e}
.pending .edge{stroke:#7d8590}
.done .mark{fill:#58a6ff;stroke:#0d1117}
.refused .mark{fill:#f0883e;stroke:#0d1117}
.done .reply{fill:#9ecbff}
.refused .reply{fill:#ffb77c}
.pending .reply{fill:#9198a1}
.c-done{stop-color:#1c4673}
.c-refused{stop-color:#6b3716}
.c-pending{stop-color:#343b45}
}
</style>
<defs>
<linearGradient id=\"open-done\"><stop offset=\".55\" class=\"c-done\"/><stop offset=\"1\" class=\"c-done\" stop-opacity=\"0\"/></linearGradient>
<linearGradient id=\"open-refused\"><stop offset=\".55\" class=\"c-refused\"/><stop offset=\"1\" class=\"c-refused\" stop-opacity=\"0\"/></linearGradient>
<linearGradient id=\"open-pending\"><stop offset=\".55\" class=\"c-pending\"/><stop offset=\"1\" class=\"c-pending\" stop-opacity=\"0\"/></linearGradient>
</defs>
<rect class=\"paper\" width=\"100%\" height=\"100%\"/>
";

/// What the shapes of a picture mean.
const LEGEND: &str = "<g class=\"legend\" transform=\"translate(52 12)\">
<g class=\"done\"><rect class=\"bar\" x=\"0\" y=\"0\" width=\"48\" height=\"18\" rx=\"6\"/><circle class=\"mark\" cx=\"24\" cy=\"18\" r=\"4.5\"/></g>
<text x=\"56\" y=\"13\">call, its point</text>
<g class=\"refused\"><rect class=\"bar\" x=\"176\" y=\"0\" width=\"48\" height=\"18\"/><path class=\"mark\" d=\"M200 12l6 6-6 6-6-6z\"/></g>
<text x=\"232\" y=\"13\">refused at its point</text>
<g class=\"pending\"><rect class=\"open\" x=\"388\" y=\"0\" width=\"48\" height=\"18\" rx=\"6\"/></g>
<text x=\"444\" y=\"13\">has not returned</text>
</g>
";

/// Makes the letters and the points of a picture larger that is shown less than 500 pixels wide.
const NARROW: &str =
    "<style>@media(max-width:500px){text,.legend{display:none}.lane{display:inline;font-size:$px;dominant-baseline:central}.mark{stroke-width:8px}.done .mark{stroke:#2563ab}.refused .mark{stroke:#b1430a}}</style>
";

/// Adds the beginning of a picture of this size: its style and its legend. If it is shown less than 500 pixels wide, it has no
/// texts but the names of the lanes, and these and the points are larger.
pub(crate) fn push_head(page: &mut Page, width: u32, height: u32) {
    page.fill(
        "<svg xmlns=\"http://www.w3.org/2000/svg\" width=\"$\" height=\"$\" viewBox=\"0 0 $ $\">\n",
        &[width, height, width, height],
    );
    page.add(STYLE);
    page.fill(NARROW, &[width / 40]);
    page.add(LEGEND);
}
