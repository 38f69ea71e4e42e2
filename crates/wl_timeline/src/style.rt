//! How a picture looks, on light and on dark backgrounds.

/// The rules of the picture's classes. Shapes differ too, so that colours needn't be told apart.
pub(crate) const STYLE: &str = "\
text{font:12px system-ui,'DejaVu Sans',sans-serif;fill:#1f2328}
.paper{fill:#ffffff}.label{font-weight:bold}.quiet{fill:#59636e}.grid{stroke:#d1d9e0}.edge{stroke:#8c959f}
.stay{stroke:#8c959f;stroke-width:3}.pending{fill:#fff3cf;stroke:#9a6700;stroke-dasharray:3 2}
.granted{fill:#cfe5ff;stroke:#0969da}.taken{fill:#57ab5a;stroke:#1a7f37}
.end{fill:none;stroke-width:2.5}.released{stroke:#1a7f37}.aborted{stroke:#cf222e}.stolen{stroke:#8250df}
.unavailable{stroke:#bc4c00}.closed{stroke:#1f2328}.told{fill:#0969da}.late{stroke:#0969da;stroke-dasharray:1 3}
.fault{fill:#cf222e}
@media (prefers-color-scheme:dark){
text{fill:#e6edf3}.paper{fill:#0d1117}.quiet{fill:#9198a1}.grid{stroke:#2d333b}.edge{stroke:#6e7681}
.stay{stroke:#6e7681}.pending{fill:#3b2e0b;stroke:#d4a72c}.granted{fill:#0c2d52;stroke:#58a6ff}
.taken{fill:#2f7d3c;stroke:#57ab5a}.released{stroke:#57ab5a}.aborted{stroke:#ff7b72}.stolen{stroke:#c297ff}
.unavailable{stroke:#ffa657}.closed{stroke:#e6edf3}.told{fill:#58a6ff}.late{stroke:#58a6ff}.fault{fill:#ff7b72}
}
";

/// What stands for what: swatches and shapes, from left to right.
pub(crate) const LEGEND: &str = "\
<rect class=\"pending\" x=\"0\" y=\"-10\" width=\"28\" height=\"12\"/><text x=\"34\" y=\"0\">pending</text>
<rect class=\"granted\" x=\"96\" y=\"-10\" width=\"28\" height=\"12\"/><text x=\"130\" y=\"0\">granted, not told yet</text>
<rect class=\"taken\" x=\"270\" y=\"-10\" width=\"28\" height=\"12\"/><text x=\"304\" y=\"0\">taken</text>
<path class=\"end released\" transform=\"translate(352 -4)\" d=\"M0-8V8\"/><text x=\"362\" y=\"0\">released</text>
<path class=\"end aborted\" transform=\"translate(434 -4)\" d=\"M-5-5 5 5M5-5-5 5\"/><text x=\"446\" y=\"0\">aborted</text>
<path class=\"end stolen\" transform=\"translate(514 -4)\" d=\"M-4-6 4 0-4 6\"/><text x=\"526\" y=\"0\">stolen</text>
<path class=\"end unavailable\" transform=\"translate(584 -4)\" d=\"M-5 0a5 5 0 1 0 10 0a5 5 0 1 0-10 0\"/>\
<text x=\"596\" y=\"0\">unavailable</text>
<path class=\"end closed\" transform=\"translate(686 -4)\" d=\"M0-8V8M-5-8V8\"/><text x=\"696\" y=\"0\">closed with its agent</text>
<path class=\"told\" transform=\"translate(844 -8)\" d=\"M0 0-4 8H4Z\"/><text x=\"854\" y=\"0\">agent told</text>
<path class=\"fault\" transform=\"translate(940 -4)\" d=\"M0-6 6 0 0 6-6 0Z\"/><text x=\"952\" y=\"0\">answered by an error</text>
";

/// The shape of an end.
pub(crate) fn end_shape(word: &str) -> &'static str {
    match word {
        "released" => "M0-8V8",
        "closed" => "M0-8V8M-5-8V8",
        "aborted" => "M-5-5 5 5M5-5-5 5",
        "stolen" => "M-4-6 4 0-4 6",
        _ => "M-5 0a5 5 0 1 0 10 0a5 5 0 1 0-10 0",
    }
}
